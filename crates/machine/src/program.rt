// What is worked out of a checked tape once, before it runs: where its arrays begin, and where its functions do.
ghost use Rattle.std.specs.Prelude.{◌≡◌, true, ℕ, ◌+◌, ◌-◌, ◌<◌, length, get_or};
ghost use Rattle.word.specs.Bytes.{base, total, fetch, store};
ghost use Rattle.tape.specs.Instruction.{code_of};
ghost use Rattle.tape.specs.Entries.{entries_of};
ghost use Rattle.tape.specs.Check.{check};
ghost use Rattle.machine.specs.Flat.{sizes, places_of, is_accepted, Stored};

use crate::reading::record;

// The tape; where each array begins in the memory, and how many bytes there are in all; the record of each function's CFUNC, and that of the exposed
// function, which is the last.
#[derive(Drop)]
pub(crate) struct Program<'a> {
    pub tape: &'a [u32],
    pub starts: [u32; 8],
    pub bytes: u32,
    pub places: [u32; 16],
    pub first: usize,
}

// The two halves of Program::new: where the arrays begin, and where the functions do. Without a heap a list is an array, and how much of it is used.
#[tactic(auto, using(crate::proofs::Tables::some_record))]
fn lay_out(tape: &[u32]) -> ([u32; 8], u32)
    requires { is_accepted (check tape.now) ≡ true }
    ensures { (result.1 ≡ total (sizes tape.now))
        × ((a : ℕ) → a < length (sizes tape.now) → get_or result.0 a 0 ≡ base (sizes tape.now) a) }
{
    let n = record(tape, 0).q as usize;
    let mut starts = [0u32; 8];
    let mut bytes = 0u32;
    for a in 0..n {
        starts[a] = bytes;
        bytes += record(tape, a + 1).p;
    }
    (starts, bytes)
}

#[tactic(auto, using(crate::proofs::Tables::listing))]
fn list_functions(tape: &[u32]) -> ([u32; 16], usize)
    requires { is_accepted (check tape.now) ≡ true }
    ensures { (result.1 ≡ length (entries_of (code_of tape.now)))
        × ((f : ℕ) → get_or result.0 f 0 ≡ get_or (places_of 0 (code_of tape.now)) f 0) }
{
    let mut places = [0u32; 16];
    let mut functions = 0;
    for at in 0..tape.len() / 4 {
        if tape[at * 4] == 3 {
            places[functions] = at as u32;
            functions += 1;
        }
    }
    (places, functions)
}

impl<'a> Program<'a> {
    #[tactic(auto, using(crate::proofs::Admitting::some_function))]
    pub(crate) fn new(tape: &'a [u32]) -> Program<'a>
        requires { is_accepted (check tape.now) ≡ true }
        ensures tape { result.tape.now ≡ tape.now }
        ensures starts { (a : ℕ) → a < length (sizes tape.now) → get_or result.starts a 0 ≡ base (sizes tape.now) a }
        ensures bytes { result.bytes ≡ total (sizes tape.now) }
        ensures places { (f : ℕ) → get_or result.places f 0 ≡ get_or (places_of 0 (code_of tape.now)) f 0 }
        ensures first { result.first ≡ get_or (places_of 0 (code_of tape.now)) (length (entries_of (code_of tape.now)) - 1) 0 }
    {
        let (starts, bytes) = lay_out(tape);
        let (places, functions) = list_functions(tape);
        Program {
            tape,
            starts,
            bytes,
            places,
            first: places[functions - 1] as usize,
        }
    }

    // A read and a write. The memory is the caller's: that the arrays lie in it is asked at each use.
    #[tactic(auto, using(std::proofs::lemmas::Bool::Decides::nat_tests), unfolding(word::specs::Bytes::fetch, word::specs::Bytes::fetch_if))]
    pub(crate) fn load(&self, memory: &[u8], a: u32, i: u32) -> u32
        requires { Stored self.now.tape.now self.now.starts (length memory.now) a }
        ensures { result ≡ fetch (sizes self.now.tape.now) memory.now a i }
    {
        let k = a as usize;
        let length = record(self.tape, k + 1).p;
        if i < length {
            memory[self.starts[k] as usize + i as usize] as u32
        } else {
            0
        }
    }

    #[tactic(auto, using(std::proofs::lemmas::Bool::Decides::nat_tests), unfolding(word::specs::Bytes::store, word::specs::Bytes::store_if))]
    pub(crate) fn keep(&self, memory: &mut [u8], a: u32, i: u32, v: u32)
        requires { Stored self.now.tape.now self.now.starts (length memory.old) a }
        ensures { memory.new ≡ store (sizes self.now.tape.now) memory.old a i v }
    {
        let k = a as usize;
        let array = record(self.tape, k + 1);
        if i < array.p {
            memory[self.starts[k] as usize + i as usize] = (v % 256) as u8;
        }
    }
}
