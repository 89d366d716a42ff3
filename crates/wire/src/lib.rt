// Reads MS-RDPEUSB messages: bytes to values, every size before any value, and no byte of a payload.
#![tactic(auto)]

pub mod add_device;
pub mod add_virtual_channel;
mod body;
pub mod cancel_request;
pub mod capability_request;
pub mod capability_response;
pub mod channel_created;
pub mod internal_io_control;
pub mod io_control;
pub mod io_control_completion;
pub mod message;
pub mod register_request_callback;
pub mod retract_device;
pub mod transfer;
pub mod transfer_in_request;
pub mod transfer_out_request;
pub mod ts_urb_result;
pub mod urb_completion;
pub mod urb_completion_no_data;
