// What the records do that stay in their place: LIT, VAR, GET, NOT, BIN, DEF, SET, PUT. Each asks for the room that the check has shown to be there.
ghost use Rattle.std.specs.Prelude.{◌≡◌, ℕ, ◌+◌, ◌-◌, ◌<◌, ◌≤◌, ◌^◌, length, get_or, set as put_at};
ghost use Rattle.word.specs.Bytes.{fetch, store};
ghost use Rattle.tape.specs.Instruction.{read};
ghost use Rattle.machine.specs.Flat.{sizes, count, flat_of, flat_by, with_operands, Small, Holds, Room, Stored};

use crate::program::Program;
use crate::registers::Registers;
use crate::stacks::Stacks;
use word::Record;

pub(crate) fn get(
    program: &Program,
    stacks: &mut Stacks,
    memory: &[u8],
    g: Registers,
    a: u32,
) -> Registers
    requires room { Small g × Holds 1 g }
    requires stored { Stored program.now.tape.now program.now.starts (length memory.now) a }
    ensures { (result ≡ count g (g.at + 1) g.operands g.loops)
        × (stacks.new ≡ with_operands stacks.old (put_at stacks.old.operands (g.operands - 1)
        (fetch (sizes program.now.tape.now) memory.now a (get_or stacks.old.operands (g.operands - 1) 0)))) }
{
    let j = g.operands - 1;
    stacks.operands[j] = program.load(memory, a, stacks.operands[j]);
    g.count(g.at + 1, g.operands, g.loops)
}

pub(crate) fn put(
    program: &Program,
    stacks: &Stacks,
    memory: &mut [u8],
    g: Registers,
    a: u32,
) -> Registers
    requires room { Small g × Holds 2 g }
    requires stored { Stored program.now.tape.now program.now.starts (length memory.old) a }
    ensures { (result ≡ count g (g.at + 1) (g.operands - 2) g.loops)
        × (memory.new ≡ store (sizes program.now.tape.now) memory.old a (get_or stacks.now.operands (g.operands - 2) 0)
        (get_or stacks.now.operands (g.operands - 1) 0)) }
{
    let i = g.operands - 2;
    program.keep(memory, a, stacks.operands[i], stacks.operands[i + 1]);
    g.count(g.at + 1, i, g.loops)
}

// A record that leaves loops and calls alone.
#[tactic(auto, using(std::proofs::lemmas::Bool::Decides::nat_tests), unfolding(crate::specs::Flat::flat_by, crate::specs::Flat::Room, tape::specs::Instruction::read))]
pub(crate) fn work(
    program: &Program,
    stacks: &mut Stacks,
    memory: &mut [u8],
    g: Registers,
    x: Record,
) -> Registers
    requires small { Small g }
    requires kind { (x.kind ≡ 15 → ⊥) × (x.kind ≡ 19 → ⊥) × (x.kind ≡ 20 → ⊥) × (x.kind ≡ 21 → ⊥) }
    requires room { Room (length (sizes program.now.tape.now)) g (read x) }
    requires stored { (a : ℕ) → a < length (sizes program.now.tape.now)
        → Stored program.now.tape.now program.now.starts (length memory.old) a }
    ensures { flat_of result stacks.new memory.new
        ≡ flat_by program.now.tape.now program.now.places (read x) (flat_of g stacks.old memory.old) }
{
    match x.kind {
        10 => stacks.literal(g, x.p),
        11 => stacks.variable(g, x.p),
        12 => get(program, stacks, memory, g, x.p),
        13 => stacks.complement(g),
        14 => stacks.operate(g, x.p),
        16 => stacks.assign(g, x.p),
        17 => stacks.assign(g, x.p),
        18 => put(program, stacks, memory, g, x.p),
        _ => g,
    }
}
