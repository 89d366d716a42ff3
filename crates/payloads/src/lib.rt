// The payload call.
#![tactic(auto)]

pub mod payload;
