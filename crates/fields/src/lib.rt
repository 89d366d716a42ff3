// The fields of a message, as the writer takes them: their parts are parts of the message itself.
#![tactic(auto)]

pub mod add_device;
pub mod message;
pub mod transfer;
pub mod urb_completion;
