// No code: what calls keep of a round, and which rounds calls reach.
#![tactic(auto)]
