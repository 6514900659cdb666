// From a tree to bytes and back: the theorems alone, see specs/ and proofs/.

#![tactic(auto)]
