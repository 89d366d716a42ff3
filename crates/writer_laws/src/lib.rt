// No code: what is written is read back, and what was read is written again.
#![tactic(auto)]
