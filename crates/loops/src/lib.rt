// No code: specs/ says what a counting loop, a search, a test of every place and a sum over places are,
// and proofs/ has their laws, once for all crates.
#![tactic(auto)]
