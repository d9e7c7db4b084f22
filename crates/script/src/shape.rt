// How many parts follow a record of a script table. Assumes nothing of the record.
#![tactic(auto, using(std::proofs::lemmas::Bool::Decides::nat_tests), unfolding(crate::specs::Table::read_e, crate::specs::Table::read_s, crate::specs::Shape::parts_in, crate::specs::Shape::expressions_in, crate::specs::Shape::statements_in))]

ghost use Rattle.std.specs.Prelude.{◌≡◌};
ghost use Rattle.script.specs.Table.{read_e, read_s};
ghost use Rattle.script.specs.Shape.{parts_in, expressions_in, statements_in};

use word::Record;

// How many expressions an expression's record is followed by.
pub fn parts_in(x: Record, params: &[u32]) -> u32
    ensures { result ≡ parts_in params.now (read_e x) }
{
    let kind = x.kind;
    match kind {
        20..=23 => 0,
        24..=26 => 1,
        27 => 2,
        _ => params.get(x.p as usize).copied().unwrap_or(0),
    }
}

// A statement's record is followed by so many expressions,
pub fn expressions_in(x: Record) -> u32
    ensures { result ≡ expressions_in (read_s x) }
{
    let kind = x.kind;
    match kind {
        30 | 31 | 35 => 0,
        34 => 2,
        _ => 1,
    }
}

// and then by so many statements.
pub fn statements_in(x: Record) -> u32
    ensures { result ≡ statements_in (read_s x) }
{
    let kind = x.kind;
    match kind {
        31 => x.p,
        35 => 1,
        36 => 2,
        _ => 0,
    }
}
