// The core tape: its records by name, and counts that are held. The definitions are in specs, their laws in proofs; the check of any list of words
// stands in the crate checker.
#![tactic(auto)]

pub mod held;
pub mod instruction;
