// The mathematics of the desk: pieces of work, what it means that they fit, what is owed by an instant, the step, and
// what is promised over any run of calls. The definitions stand in specs/, the theorems in proofs/.
// It must not know machine numbers, arrays, limits or refusals.
#![tactic(auto)]
