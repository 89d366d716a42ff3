// The values that 01 states for a TsUrb, which the urb crate reads.
#![tactic(auto)]

pub mod values;
