// The kind of a message, by its header, its side and what its channel has learnt.
#![tactic(auto)]

pub mod kind;
