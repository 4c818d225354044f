// No code: worked examples of the shape test of a vote graph.
#![tactic(auto)]
