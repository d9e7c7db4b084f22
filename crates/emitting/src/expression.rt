// Expressions, read in prefix order and written in postfix order: the parts first, then the record's own.
#![tactic(auto, using(std::proofs::lemmas::Bool::Decides::nat_tests), unfolding(script::specs::Table::read_e, tape::specs::Named::named, crate::specs::Walking::lowered_code, crate::specs::Walking::own))]

ghost use Rattle.std.specs.Prelude.{◌≡◌};
ghost use Rattle.script.specs.Table.{read_e};
ghost use Rattle.tape.specs.Named.{named};
ghost use Rattle.emitting.specs.Emitting.{puts};
ghost use Rattle.emitting.specs.Walking.{on, desk_of, lowered_code, own, walk_e};

use crate::walk::{Source, Walk};
use script::shape::parts_in;
use tape::instruction::Instruction;
use word::Record;
use word::operators::{FALSE, TRUE};

// The codes of `&` and `|`.
pub const AND: u32 = 6;

pub const OR: u32 = 7;

// `&&` becomes `&`, and `||` becomes `|`.
fn lowered(code: u32) -> u32
    ensures { result ≡ lowered_code code }
{
    match code {
        14 => AND,
        15 => OR,
        _ => code,
    }
}

// A record's own on the tape.
fn own(x: Record) -> Instruction
    ensures { puts (named result) ≡ own (read_e x) }
{
    let kind = x.kind;
    match kind {
        20 => Instruction::Lit(x.p),
        21 => Instruction::Lit(TRUE),
        22 => Instruction::Lit(FALSE),
        23 => Instruction::Var(x.p),
        24 => Instruction::Get(x.p),
        25 => Instruction::Not,
        26 => Instruction::Not,
        27 => Instruction::Bin(lowered(x.p)),
        _ => Instruction::Call(x.p),
    }
}

// The expression where the walk stands, which may hold others to the depth `left`, itself counted.
#[tactic(auto, using(script::proofs::Times::times_more, script::proofs::Times::times_over, crate::proofs::Stepping::walk_e_none, crate::proofs::Stepping::walk_e_end, crate::proofs::Stepping::walk_e_found))]
pub fn expression(source: Source, out: &mut [u32], from: Walk, left: u32) -> Walk
    ensures { desk_of out.new result ≡ walk_e source.entry.params.now source.entry.table.now left (desk_of out.old from) }
{
    if left == 0 {
        return from;
    }
    let Some((x, next)) = from.reader.next(source.table) else {
        return from;
    };
    let parts = parts_in(x, source.params);
    let mut here = from.reading(next);
    for i in 0..parts {
        here = expression(source, out, here, left - 1);
    }
    here.put(out, own(x))
}
