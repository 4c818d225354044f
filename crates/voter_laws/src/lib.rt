// No code: what a voter set that `new` made is like, and what its answers mean.
#![tactic(auto)]
