// No code: what the replay of a journal promises.
#![tactic(auto)]
