// Loops over the records of some bytes: definitions and laws, no code.
#![tactic(auto)]
