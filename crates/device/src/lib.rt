// Reads the 28 bytes of capabilities that ADD_DEVICE says of a device.
#![tactic(auto)]

pub mod device_capabilities;
