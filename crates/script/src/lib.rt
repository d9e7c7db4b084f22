// The script language: what its definitions need of the code. The definitions are in specs, their laws in proofs; the code that reads and judges a table stands in
// the crates reading and stages.
#![tactic(auto)]

pub mod shape;

// What a record's fields are tested against: how many slots and arrays there are, which function this is, and how many parameters each
// lower one has (0 for the others). There is no heap, so the 16 are an array.
#[derive(Clone, Copy, Debug, PartialEq, Eq)]
pub struct Env {
    pub slots: u32,
    pub arrays: u32,
    pub func: u32,
    pub params: [u32; 16],
}
