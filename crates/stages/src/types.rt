// Types: refusal 10, at the record that requires. A recursive descent over the expressions of each statement, the depth that is left falling at each part.
// Every expression has a type even if a part is at fault, so it answers both. Assumes nothing of the table; what it says is meant of one that was read.
#![tactic(auto, using(std::proofs::lemmas::Bool::Decides::nat_tests), unfolding(script::specs::Stage::or_else, script::specs::Stage::after, script::specs::Types::require, scoping::specs::Passes::answered, crate::specs::Typed::no_parts, crate::specs::Typed::with_part, crate::specs::Typed::type_by, crate::specs::Typed::fits_by, crate::specs::Typed::judged, crate::specs::Typed::untyped, crate::specs::Typed::suits_by, crate::specs::Typed::settled, crate::specs::Typed::judged_s, crate::specs::Typed::typing_at))]

ghost use Rattle.std.specs.Prelude.{◌≡◌, ◌+◌};
ghost use Rattle.scoping.specs.Passes.{funcs_from, answered};
ghost use Rattle.stages.specs.Typed.{no_parts, with_part, leading, gather, type_by, fits_by, judged, untyped, typed_at, suits_by, settled, judged_s, typing_at, kept, typed_func, nobody, typed};

use crate::codes::{code_fits, code_type};
use scoping::passes::{arity, expressions, note, program};
use scoping::walk::{Stage, statement};
use word::reader::Reader;
use word::reason::Reason;
use word::sets::{has, put};
use word::{Record, Refusal};

// Whether an expression is a boolean, the first fault in it, and the cursor past it. A slot's type is one bit of a set and each use of a type is a test, so a type is
// said as whether it is a boolean: an enum would be made from that bit and turned back into it.
#[derive(Clone, Copy, Debug, PartialEq, Eq)]
pub struct Typed {
    pub boolean: bool,
    pub first: Result<(), Refusal>,
    pub next: Reader,
}

// What is known of a record's expressions so far: whether the first one is a boolean, if there is one; whether all are numbers, whether all are booleans;
// the first fault in them, and the cursor past them.
#[derive(Clone, Copy, Debug, PartialEq, Eq)]
pub struct Parts {
    pub lead: Option<bool>,
    pub numbers: bool,
    pub booleans: bool,
    pub first: Result<(), Refusal>,
    pub next: Reader,
}

impl Parts {
    fn none(next: Reader) -> Parts
        ensures { result ≡ no_parts next.at }
    {
        Parts {
            lead: None,
            numbers: true,
            booleans: true,
            first: Ok(()),
            next,
        }
    }

    fn with(self, one: Typed) -> Parts
        ensures { result ≡ with_part self one }
    {
        Parts {
            lead: Some(self.lead.unwrap_or(one.boolean)),
            numbers: self.numbers & !one.boolean,
            booleans: self.booleans & one.boolean,
            first: self.first.and(one.first),
            next: one.next,
        }
    }

    fn leading(self) -> bool
        ensures { result ≡ leading self }
    {
        self.lead.unwrap_or(false)
    }
}

// Whether an expression is a boolean, by its record and its first part's type.
fn type_by(slots: u32, x: Record, lead: bool) -> bool
    ensures { result ≡ type_by slots x lead }
{
    let kind = x.kind;
    match kind {
        21 | 22 | 25 => true,
        23 => has(slots, x.p),
        27 => code_type(x.p, lead),
        _ => false,
    }
}

// Whether an expression's parts are what it requires.
fn fits(x: Record, numbers: bool, booleans: bool) -> bool
    ensures { result ≡ fits_by x numbers booleans }
{
    let kind = x.kind;
    match kind {
        25 => booleans,
        27 => code_fits(x.p, numbers, booleans),
        _ => numbers,
    }
}

// The whole's own fault comes before its parts'.
fn judge(slots: u32, x: Record, at: Reader, parts: Parts) -> Typed
    ensures { result ≡ judged slots x at.at parts }
{
    let fit = fits(x, parts.numbers, parts.booleans);
    let own = at.require(fit, Reason::Mistyped);
    Typed {
        boolean: type_by(slots, x, parts.leading()),
        first: own.and(parts.first),
        next: parts.next,
    }
}

fn nothing(at: Reader) -> Typed
    ensures { result ≡ untyped at.at }
{
    Typed {
        boolean: false,
        first: Ok(()),
        next: at,
    }
}

// Whether a statement's expressions are what it requires: a SET's of its slot's type, a condition a boolean, the others numbers.
fn suits(slots: u32, x: Record, parts: Parts) -> bool
    ensures { result ≡ suits_by slots x parts }
{
    let kind = x.kind;
    match kind {
        33 => has(slots, x.p) == parts.leading(),
        34 => parts.numbers,
        36 => parts.booleans,
        37 => parts.numbers,
        _ => true,
    }
}

// A DEF'd slot has its expression's type. A slot is declared once, so nothing is taken back.
fn settle(slots: u32, x: Record, lead: bool) -> u32
    ensures { result ≡ settled slots x lead }
{
    if x.kind == 32 {
        put(slots, x.p, lead)
    } else {
        slots
    }
}

// The stage: what it carries are the slots that are booleans. Of each function before it is known how many parameters it has.
#[derive(Clone, Copy)]
struct Typing {
    params: [u32; 16],
}

impl Typing {
    // The expression at the cursor, which may hold others to the depth that is left, itself counted.
    #[tactic(auto, using(crate::proofs::Gathering::typed_deep, crate::proofs::Gathering::typed_end, crate::proofs::Gathering::typed_found, crate::proofs::Gathering::gather_more, crate::proofs::Gathering::gather_all))]
    fn expression(&self, table: &[u32], slots: u32, start: Reader, left: u32) -> Typed
        ensures { result ≡ typed_at table.now self.now.params slots left start.at }
    {
        if left == 0 {
            return nothing(start);
        }
        let Some((x, next)) = start.next(table) else {
            return nothing(start);
        };
        let count = arity(&self.params, x);
        let mut parts = Parts::none(next);
        for part in 0..count {
            parts = parts.with(self.expression(table, slots, parts.next, left - 1));
        }
        judge(slots, x, start, parts)
    }

    // So many expressions, one after another.
    #[tactic(auto, using(crate::proofs::Gathering::gather_more, crate::proofs::Gathering::gather_all))]
    fn gather(&self, table: &[u32], slots: u32, next: Reader, count: u32) -> Parts
        ensures { result ≡ gather (typed_at table.now self.now.params slots 16) count (no_parts next.at) }
    {
        let mut parts = Parts::none(next);
        for part in 0..count {
            parts = parts.with(self.expression(table, slots, parts.next, 16));
        }
        parts
    }
}

impl Stage for Typing {
    type State = u32;

    ghost enters = { λ s t. typing_at t s.params };

    ghost closes = { kept };

    // A statement's own fault comes before its expressions'.
    fn enter(
        &self,
        table: &[u32],
        at: Reader,
        x: Record,
        next: Reader,
        slots: u32,
    ) -> Result<(Reader, u32), Refusal> {
        let parts = self.gather(table, slots, next, expressions(x));
        at.require(suits(slots, x, parts), Reason::Mistyped)?;
        parts.first?;
        Ok((parts.next, settle(slots, x, parts.leading())))
    }

    fn leave(&self, kind: u32, outside: u32, inside: u32) -> u32 {
        inside
    }
}

// So many functions from the cursor on; of each it is noted how many parameters it has.
#[tactic(auto, using(scoping::proofs::Walking::funcs_all, scoping::proofs::Walking::funcs_end))]
fn functions(table: &[u32], start: Reader, count: u32) -> Result<(), Refusal>
    ensures { result ≡ funcs_from (typed_func table.now) table.now count nobody start.at }
{
    let mut stage = Typing { params: [0; 16] };
    let mut at = start;
    for f in 0..count {
        let Some((x, next)) = at.next(table) else {
            return Ok(());
        };
        let (past, _) = statement(&stage, table, next, 16, 0)?;
        at = past;
        note(&mut stage.params, f as usize, x.p);
    }
    Ok(())
}

// The heading is read for itself, as each stage does: no stage hands anything to the next.
#[tactic(auto, unfolding(crate::specs::Typed::typed, scoping::specs::Passes::staged))]
pub fn types(table: &[u32]) -> Result<(), Refusal>
    ensures { result ≡ typed table.now }
{
    let heading = program(table);
    functions(table, heading.first, heading.functions)
}
