// Whether a call has a number and a place.
#![tactic(auto)]

pub mod place;
