// The canonical bytes of tokens, and that tokens fix bytes: definitions in specs/, theorems in proofs/. No code.

#![tactic(auto)]
