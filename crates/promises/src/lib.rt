// The promises: what the workshop was promised of every call and of any calls from an opening, stated in specs/ in the order
// of the demands, proved in proofs/. There is no code here.
// It must not know how anything is computed: it reads the calls' contracts alone.
#![tactic(auto)]
