// No code: the steps of the answers have the meaning that `grandpa` gives them.
#![tactic(auto)]
