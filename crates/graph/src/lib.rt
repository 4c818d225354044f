// No code: specs/ writes down the vote graph's steps from vote_graph.rs, on places and lists, and proofs/ says what they mean.
#![tactic(auto)]
