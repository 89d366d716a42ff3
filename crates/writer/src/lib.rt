// Writes a message of kinds 1 to 17 from its fields (02 R-1): beside each reader of the wire crate, what its message is written from.
#![tactic(auto)]

pub mod add_device;
pub mod add_virtual_channel;
pub mod cancel_request;
pub mod capability_request;
pub mod capability_response;
pub mod channel_created;
pub mod io_control;
pub mod io_control_completion;
pub mod message;
pub mod part;
pub mod register_request_callback;
pub mod retract_device;
pub mod shared_msg_header;
pub mod transfer;
pub mod ts_urb;
pub mod urb_completion;
