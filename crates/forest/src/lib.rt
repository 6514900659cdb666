// The way from lists of nodes to trees: no code, only definitions and laws in specs/.

#![tactic(auto)]
