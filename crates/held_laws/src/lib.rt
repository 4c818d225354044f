// No code: what keeps the shape of a round, and which states calls reach.
#![tactic(auto)]
