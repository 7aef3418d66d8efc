// Sums, tests and statements over lists, and their laws: the words in which every crate above says what it means.
// It must not know what the lists hold.
#![tactic(auto)]
