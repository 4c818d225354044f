// No code: what the calls that consoles link can answer.
#![tactic(auto)]
