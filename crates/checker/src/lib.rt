// The check of a core tape: any list of words, refusals 21 to 30.
#![tactic(auto)]

mod advance;
pub mod check;
mod faults;
mod slots;
mod standing;
mod turns;
