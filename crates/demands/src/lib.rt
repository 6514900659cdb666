// The demands as theorems over the public entries: see specs/. No code.

#![tactic(auto)]
