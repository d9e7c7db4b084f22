// FOR and END. Each asks for the room that the check has shown to be there.
ghost use Rattle.std.specs.Prelude.{◌≡◌, ℕ, ◌+◌, ◌-◌, ◌<◌, ◌≤◌, ◌^◌, List, get_or};
ghost use Rattle.word.specs.Records.{records, record_at};
ghost use Rattle.tape.specs.Instruction.{for, end};
ghost use Rattle.machine.specs.Flat.{count, fors_of, passes_of, flat_of, flat_by, next_pass, Small, Looping};

use crate::program::Program;
use crate::reading::{past, record};
use crate::registers::Registers;
use crate::stacks::{Loop, Stacks};

// FOR: its first pass, or on behind the loop.
#[tactic(auto, using(crate::proofs::Rows::rows), unfolding(crate::specs::Flat::flat_by, crate::specs::Flat::pick))]
pub(crate) fn begin(
    program: &Program,
    stacks: &mut Stacks,
    g: Registers,
    x: u32,
    q: u32,
    r: u32,
) -> Registers
    requires { (g.at < records program.now.tape.now) × Small g × (g.loops < 128) × (g.base + x < 1024) }
    ensures { (m : List ℕ) → flat_of result stacks.new m
        ≡ flat_by program.now.tape.now program.now.places (for x q r) (flat_of g stacks.old m) }
{
    if q < r {
        let d = g.loops;
        stacks.loops[d] = Loop {
            at: g.at as u32,
            pass: q,
        };
        stacks.slots[g.base + x as usize] = q;
        g.count(g.at + 1, g.operands, d + 1)
    } else {
        g.free(past(program.tape, g.at), g.operands, g.loops)
    }
}

// The number of the innermost loop's next pass, where it has one.
#[tactic(auto, using(crate::proofs::Rows::rows), unfolding(crate::specs::Flat::next_pass, crate::specs::Flat::pass_left, crate::specs::Flat::pick))]
pub(crate) fn next_pass(tape: &[u32], stacks: &Stacks, loops: usize) -> Option<u32>
    requires { (1 ≤ loops) × (loops ≤ 128) × (get_or (fors_of stacks.now.loops) (loops - 1) 0 < records tape.now) }
    ensures { result ≡ next_pass tape.now (fors_of stacks.now.loops) (passes_of stacks.now.loops) loops }
{
    let d = loops - 1;
    let x = record(tape, stacks.loops[d].at as usize);
    stacks.loops[d].pass.checked_add(1).filter(|n| *n < x.r)
}

// END: the next pass, or on behind the loop.
#[tactic(auto, using(crate::proofs::Rows::rows), unfolding(crate::specs::Flat::flat_by, crate::specs::Flat::next_pass, crate::specs::Flat::pick))]
pub(crate) fn end(program: &Program, stacks: &mut Stacks, g: Registers) -> Registers
    requires { Small g × Looping program.now.tape.now (fors_of stacks.old.loops) g }
    ensures { (m : List ℕ) → flat_of result stacks.new m
        ≡ flat_by program.now.tape.now program.now.places end (flat_of g stacks.old m) }
{
    let d = g.loops - 1;
    match next_pass(program.tape, stacks, g.loops) {
        Some(n) => {
            let f = stacks.loops[d].at as usize;
            let x = record(program.tape, f);
            stacks.loops[d].pass = n;
            stacks.slots[g.base + x.p as usize] = n;
            g.count(f + 1, g.operands, g.loops)
        }
        None => g.free(g.at + 1, g.operands, d),
    }
}
