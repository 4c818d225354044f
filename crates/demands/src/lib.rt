// No code: what the customer asked for, stated in their words and proved over the calls of the round.
#![tactic(auto)]
