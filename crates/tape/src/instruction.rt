// The records of a function on a core tape, by name, and the words of each.
ghost use Rattle.std.specs.Prelude.{◌≡◌};
ghost use Rattle.tape.specs.Instruction.{write};
ghost use Rattle.tape.specs.Named.{named};

use word::Record;

// CFUNC, and what stands in a function's body.
#[derive(Clone, Copy, Debug, PartialEq, Eq)]
pub enum Instruction {
    CFunc { params: u32, slots: u32 },
    Lit(u32),
    Var(u32),
    Get(u32),
    Not,
    Bin(u32),
    Call(u32),
    Def(u32),
    Set(u32),
    Put(u32),
    For { slot: u32, from: u32, to: u32 },
    End,
    Ret(u32),
}

use Instruction::{Bin, CFunc, Call, Def, End, For, Get, Lit, Not, Put, Ret, Set, Var};

// Four words.
fn words(kind: u32, p: u32, q: u32, r: u32) -> Record
    ensures { (result.kind ≡ kind) × (result.p ≡ p) × (result.q ≡ q) × (result.r ≡ r) }
{
    Record { kind, p, q, r }
}

// The one place where a record's words are written.
impl From<Instruction> for Record {
    ghost from_gives = { λ i x. x ≡ write (named i) };

    #[tactic(auto, unfolding(crate::specs::Instruction::write, crate::specs::Named::named))]
    fn from(i: Instruction) -> Record {
        match i {
            CFunc { params, slots } => words(3, params, slots, 0),
            Lit(value) => words(10, value, 0, 0),
            Var(slot) => words(11, slot, 0, 0),
            Get(array) => words(12, array, 0, 0),
            Not => words(13, 0, 0, 0),
            Bin(code) => words(14, code, 0, 0),
            Call(function) => words(15, function, 0, 0),
            Def(slot) => words(16, slot, 0, 0),
            Set(slot) => words(17, slot, 0, 0),
            Put(array) => words(18, array, 0, 0),
            For { slot, from, to } => words(19, slot, from, to),
            End => words(20, 0, 0, 0),
            Ret(slot) => words(21, slot, 0, 0),
        }
    }
}
