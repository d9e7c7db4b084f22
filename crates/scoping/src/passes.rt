// What the later stages share: where the functions begin, how many parts a record has, how many parameters each function has. Assumes nothing of the records.
#![tactic(auto, using(std::proofs::lemmas::Bool::Decides::nat_tests), unfolding(crate::specs::Passes::heading, crate::specs::Passes::heading_of, crate::specs::Passes::noted, crate::specs::Passes::expressions_of, crate::specs::Passes::arity_of, crate::specs::Passes::params_of, script::specs::Shape::parts_in, script::specs::Shape::expressions_in, script::specs::Table::read_e, script::specs::Table::read_s))]

ghost use Rattle.std.specs.Prelude.{◌≡◌};
ghost use Rattle.scoping.specs.Passes.{heading, noted, expressions_of, arity_of};

use script::shape::{expressions_in, parts_in};
use word::Record;
use word::reader::Reader;

// What PROGRAM says: how many functions there are, and where the first one begins, after the arrays.
#[derive(Clone, Copy)]
pub struct Heading {
    pub functions: u32,
    pub first: Reader,
}

// Where there is no record there is no function. Each stage reads it for itself: no stage hands anything to the next.
pub fn program(table: &[u32]) -> Heading
    ensures { result ≡ heading table.now }
{
    match Reader::new().next(table) {
        Some((x, _)) => Heading {
            functions: x.p,
            first: Reader {
                at: 1 + x.q as usize,
            },
        },
        None => Heading {
            functions: 0,
            first: Reader { at: 0 },
        },
    }
}

// How many expressions are a statement's; a record that is none has no such parts.
pub fn expressions(x: Record) -> u32
    ensures { result ≡ expressions_of x.kind }
{
    let kind = x.kind;
    match kind {
        30..=37 => expressions_in(x),
        _ => 0,
    }
}

// How many expressions are an expression's parts: CALL has as many as its function has parameters.
pub fn arity(params: &[u32; 16], x: Record) -> u32
    ensures { result ≡ arity_of params.now x }
{
    let kind = x.kind;
    match kind {
        20..=28 => parts_in(x, params),
        _ => 0,
    }
}

// A row says v of function f from now on, if it has a place for it. By index: of what `get_mut` lends of a slice nothing is known afterwards but the length.
pub fn note(row: &mut [u32], f: usize, v: u32)
    ensures { row.new ≡ noted row.old f v }
{
    if f < row.len() {
        row[f] = v;
    }
}
