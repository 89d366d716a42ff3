// The theory of a table of channels, for any machine that a channel may be: what reordering the calls of a run does. No rule of 01 stands here, and no code.
#![tactic(auto)]
