// The table of 8 channels, and its calls: open, judge, close.
#![tactic(auto)]

pub mod entry;
pub mod on_channel;
pub mod table;
