// The journal: what a run of calls gives; a record of a capture as a call, and a piece of a capture as the lines of its records.
#![tactic(auto)]

pub mod piece;
pub mod record;
