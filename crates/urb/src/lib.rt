// Reads a TS_URB: the URB of a transfer request, with its interface and pipe lists.
#![tactic(auto)]

pub mod bulk_or_interrupt_transfer;
pub mod control_transfer;
pub mod get_current_frame_number;
pub mod interfaces;
pub mod isoch_transfer;
pub mod pipe_request;
pub mod select_configuration;
pub mod select_interface;
pub mod ts_urb;
