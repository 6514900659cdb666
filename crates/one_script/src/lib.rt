// One tree, one script: the theorem alone, see specs/.

#![tactic(auto)]
