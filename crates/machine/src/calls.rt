// CALL and RET. Each asks for the room that the check has shown to be there.
ghost use Rattle.std.specs.Prelude.{◌≡◌, ℕ, ◌+◌, ◌-◌, ◌<◌, ◌≤◌, ◌^◌, List, length};
ghost use Rattle.tape.specs.Instruction.{call, ret};
ghost use Rattle.machine.specs.Flat.{flat_of, flat_by, copied, Small, Callable};

use crate::program::Program;
use crate::reading::record;
use crate::registers::Registers;
use crate::stacks::{Frame, Stacks};

// n values from i on become the slots from j on. One by one: for the few that a call has, the library's copy of a slice takes longer. It stays a call, since
// its loop in the machine's own takes registers from every other step.
#[inline(never)]
#[tactic(auto, using(crate::proofs::Copying::copy_none, crate::proofs::Copying::copy_one, crate::proofs::Copying::copy_all))]
pub(crate) fn copy(values: &[u32], i: usize, slots: &mut [u32; 1024], j: usize, n: usize)
    requires { (i + n ≤ length values.now) × (j + n ≤ 1024) }
    ensures { slots.new ≡ copied n values.now i slots.old j }
{
    for k in 0..n {
        slots[j + k] = values[i + k];
    }
}

// CALL opens a frame above the present one, and its operands become the parameters.
#[tactic(auto, using(crate::proofs::Rows::rows), unfolding(crate::specs::Flat::flat_by))]
pub(crate) fn call(program: &Program, stacks: &mut Stacks, g: Registers, f: u32) -> Registers
    requires small { Small g }
    requires callable { Callable program.now.tape.now program.now.places f g }
    ensures { (m : List ℕ) → flat_of result stacks.new m
        ≡ flat_by program.now.tape.now program.now.places (call f) (flat_of g stacks.old m) }
{
    let c = program.places[f as usize] as usize;
    let x = record(program.tape, c);
    let n = x.p as usize;
    let i = g.operands - n;
    let d = g.calls;
    stacks.frames[d] = Frame {
        back: g.at + 1,
        base: g.base,
    };
    copy(&stacks.operands, i, &mut stacks.slots, g.top, n);
    g.frame(c + 1, i, g.top, g.top + x.q as usize, d + 1)
}

// RET leaves the value of its slot among the operands, and the machine off the tape or back in the caller.
#[tactic(auto, using(crate::proofs::Rows::rows), unfolding(crate::specs::Flat::flat_by, crate::specs::Flat::pick))]
pub(crate) fn finish(program: &Program, stacks: &mut Stacks, g: Registers, x: u32) -> Registers
    requires { (g.steps < 2 ^ 63) × (g.operands < 2048) × (g.base + x < 1024) × (g.calls ≤ 16) }
    ensures { (m : List ℕ) → flat_of result stacks.new m
        ≡ flat_by program.now.tape.now program.now.places (ret x) (flat_of g stacks.old m) }
{
    let n = g.operands;
    stacks.operands[n] = stacks.slots[g.base + x as usize];
    if g.calls == 0 {
        g.count(program.tape.len() / 4, n + 1, g.loops)
    } else {
        let d = g.calls - 1;
        let f = stacks.frames[d];
        g.frame(f.back, n + 1, f.base, g.base, d)
    }
}
