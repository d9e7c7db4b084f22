// The translation of a script, and the answer of its compiler: definitions and laws; the code stands in the crate compiler.
#![tactic(auto)]

// What a compiler says of the tape that it wrote: how many records it has, and the steps of its exposed function.
#[derive(Clone, Copy, Debug, PartialEq, Eq)]
pub struct Tape {
    pub records: usize,
    pub steps: u32,
}
