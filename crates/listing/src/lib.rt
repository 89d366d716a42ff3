// The program layer: what the listing program and the programs beside it do with a capture that a reader gives. What a piece of it gives is the journal's and is proved
// there; here is reading and writing, of which a contract can say only where the table is led (docs/DECISIONS.md, 43).
#![tactic(auto)]

pub mod capture;
mod input;
mod output;
