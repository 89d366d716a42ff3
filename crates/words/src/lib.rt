// Numbers at a place of a message, an HRESULT, and what a size reader answers.
#![tactic(auto)]

pub mod hresult;
pub mod layout;
pub mod numbers;
