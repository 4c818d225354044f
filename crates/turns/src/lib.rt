// No code: the turns of a journal, and its replay as a function on bytes.
#![tactic(auto)]
