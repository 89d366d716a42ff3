// A channel: what it has learnt of its device, and its 16 rows for open requests.
#![tactic(auto)]

pub mod channel;
pub mod row;
