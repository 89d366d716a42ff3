// Reads a counted text, as ADD_DEVICE has four of them.
#![tactic(auto)]

pub mod text;
