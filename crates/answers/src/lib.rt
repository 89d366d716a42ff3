// 01's answers and kinds with their numbers, the phases of the kinds, and what an entry of the journal is.
#![tactic(auto)]

pub mod answer;
pub mod entry;
pub mod kind;
pub mod phase;
