// The decoder's rows on lists of nodes: definitions and laws alone (specs/), a device of the proof that the code's tables
// follow the machine on trees of crate `standard`.

#![tactic(auto)]
