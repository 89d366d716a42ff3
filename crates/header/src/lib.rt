// The three ids, and the header that every message starts with.
#![tactic(auto)]

pub mod ids;
pub mod shared_msg_header;
