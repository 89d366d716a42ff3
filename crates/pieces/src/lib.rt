// A message as pieces, the pieces in a lent buffer, and one interface out of plain numbers.
#![tactic(auto)]

pub mod interface;
pub mod piece;
