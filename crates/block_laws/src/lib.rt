// No code: what adding a block and asking a table mean, and worked examples.
#![tactic(auto)]
