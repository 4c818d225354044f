// No code: what `is_voted` of vote_shape tests, and that recording a pair keeps it.
#![tactic(auto)]
