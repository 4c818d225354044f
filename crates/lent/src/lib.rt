// No code: specs/ says what a contract reads from a lent column, so that one definition over columns serves every contract and proof.
#![tactic(auto)]
