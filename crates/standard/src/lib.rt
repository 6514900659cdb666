// What a tree is, how BIP 379 writes it, and what the rows of `decode` do: definitions and theorems alone, see specs/.

#![tactic(auto)]
