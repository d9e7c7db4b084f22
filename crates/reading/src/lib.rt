// Reading a script table: its structure, refusals 1 to 7.
#![tactic(auto)]

mod descent;
mod leads;
pub mod structure;
