// The later stages over a script table, types (refusal 10) and stores (11), and the judgement of them all, the structure and scope before them.
#![tactic(auto)]

mod codes;
pub mod judge;
mod stores;
mod types;
