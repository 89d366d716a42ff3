// 01's rules, as 02 corrects them, for what a message asks of a channel: what the rows allow, and what is done. No row is looked at or kept here.
#![tactic(auto)]

pub mod cancel;
pub mod completion;
pub mod decide;
pub mod request;
pub mod verdict;
