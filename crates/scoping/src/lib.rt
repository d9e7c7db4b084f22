// The first stage after the structure: scope (refusals 8, 9); and what the later stages share with it.
#![tactic(auto)]

pub mod passes;
pub mod scope;
pub mod walk;
