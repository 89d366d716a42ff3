// What is found in the rows of a channel: the lowest free row, how many are open.
#![tactic(auto)]

pub mod search;
