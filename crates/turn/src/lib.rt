// A message on one channel: admit reads it, the rules decide, store keeps the rows. What a call does on a channel goes by the channel, its number, the
// side and the message, and by nothing else.
#![tactic(auto)]

pub mod admit;
pub mod step;
pub mod store;
