// What is open on a channel under an id.
#![tactic(auto)]

pub mod open;
mod row;
