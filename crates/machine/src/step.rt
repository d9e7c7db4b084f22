// One step of a machine that stands on a checked tape, and whether the record at hand counts.
ghost use Rattle.std.specs.Prelude.{◌≡◌, ◌<◌, length};
ghost use Rattle.word.specs.Records.{records, record_at};
ghost use Rattle.tape.specs.Instruction.{read, end};
ghost use Rattle.machine.specs.Flat.{fors_of, passes_of, flat_of, flat_by, free_by, Looping, Ready};

use crate::calls::{call, finish};
use crate::loops::{begin, end, next_pass};
use crate::program::Program;
use crate::reading::record;
use crate::registers::Registers;
use crate::stacks::Stacks;
use crate::values::work;

// The record at hand, whatever it is.
#[tactic(auto, unfolding(crate::specs::Flat::Room, tape::specs::Instruction::read))]
pub(crate) fn step(
    program: &Program,
    stacks: &mut Stacks,
    memory: &mut [u8],
    g: Registers,
) -> Registers
    requires { Ready program.now.tape.now program.now.starts program.now.places g (fors_of stacks.old.loops) (length memory.old) }
    ensures { flat_of result stacks.new memory.new
        ≡ flat_by program.now.tape.now program.now.places (read (record_at program.now.tape.now g.at)) (flat_of g stacks.old memory.old) }
{
    let x = record(program.tape, g.at);
    match x.kind {
        15 => call(program, stacks, g, x.p),
        19 => begin(program, stacks, g, x.p, x.q, x.r),
        20 => end(program, stacks, g),
        21 => finish(program, stacks, g, x.p),
        _ => work(program, stacks, memory, g, x),
    }
}

// Whether the record at hand counts nothing.
#[tactic(auto, using(std::proofs::lemmas::Bool::Decides::nat_tests), unfolding(crate::specs::Flat::free_by, crate::specs::Flat::next_pass, crate::specs::Flat::pick, tape::specs::Instruction::read))]
pub(crate) fn is_free(tape: &[u32], stacks: &Stacks, g: Registers) -> bool
    requires on_tape { g.at < records tape.now }
    requires innermost { read (record_at tape.now g.at) ≡ end → Looping tape.now (fors_of stacks.now.loops) g }
    ensures { result ≡ free_by (read (record_at tape.now g.at)) tape.now (fors_of stacks.now.loops) (passes_of stacks.now.loops) g.loops }
{
    let x = record(tape, g.at);
    match x.kind {
        10 => true,
        19 => x.r <= x.q,
        20 => next_pass(tape, stacks, g.loops).is_none(),
        _ => false,
    }
}
