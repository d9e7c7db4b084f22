// Scope: refusals 8 and 9. A statement's expressions are the records of kinds 20 to 28 that follow it, whatever their shape. Assumes nothing of the table;
// what it says is meant of one that was read.
#![tactic(auto, using(std::proofs::lemmas::Bool::Decides::nat_tests), unfolding(word::specs::Slots::here, script::specs::Stage::after, script::specs::Stage::onward, script::specs::Scope::settable, crate::specs::Passes::past, crate::specs::Passes::answered, crate::specs::Scoped::seen_of, crate::specs::Scoped::hides, crate::specs::Scoped::declarable, crate::specs::Scoped::own, crate::specs::Scoped::declares, crate::specs::Scoped::shown, crate::specs::Scoped::closed_by, crate::specs::Scoped::entering, crate::specs::Scoped::scoping, crate::specs::Scoped::parameters_of))]

ghost use Rattle.std.specs.Prelude.{◌≡◌, drop};
ghost use Rattle.word.specs.Records.{records_of};
ghost use Rattle.word.specs.Sets.{has};
ghost use Rattle.script.specs.Scope.{settable};
ghost use Rattle.scoping.specs.Passes.{funcs_from, past};
ghost use Rattle.scoping.specs.Scoped.{seen_of, hides, seek, declarable, own, declares, shown, closed_by, entering, parameters_of, scoped_func, scoped};

use crate::passes::program;
use crate::walk::{Stage, statement};
use word::reader::Reader;
use word::reason::Reason;
use word::sets::{below, has, put};
use word::{Record, Refusal};

// What is visible, as a DEF's slot or as a parameter or a loop's, and which slots were declared so far. Three sets, a bit for each slot: a map from slots to what they
// are would be an array, copied at each statement.
#[derive(Clone, Copy, Debug, PartialEq, Eq)]
pub struct Slots {
    pub defined: u32,
    pub fixed: u32,
    pub declared: u32,
}

impl Slots {
    // Before a function's statement: its parameters.
    fn parameters(p: u32) -> Slots
        ensures { result ≡ parameters_of p }
    {
        let fixed = below(p);
        Slots {
            defined: 0,
            fixed,
            declared: fixed,
        }
    }

    // Whether the record is a VAR of a slot that is not visible.
    fn hides(self, x: Record) -> bool
        ensures { result ≡ hides self x }
    {
        x.kind == 23 && !(has(self.defined, x.p) | has(self.fixed, x.p))
    }

    // 8: a slot is declared once at most.
    fn declarable(self, x: u32, at: Reader) -> Result<(), Refusal>
        ensures { result ≡ declarable (has self.declared x) at.at }
    {
        at.require(!has(self.declared, x), Reason::Scope)
    }

    // 8 if it is not visible, 9 if it is a parameter or a loop's.
    fn settable(self, x: u32, at: Reader) -> Result<(), Refusal>
        ensures { result ≡ settable (seen_of self x) at.at }
    {
        if has(self.defined, x) {
            return Ok(());
        }
        if has(self.fixed, x) {
            return Err(at.refusal(Reason::Fixed));
        }
        Err(at.refusal(Reason::Scope))
    }

    // The fault of a statement's record by itself, which comes before its expressions'.
    fn own(self, x: Record, at: Reader) -> Result<(), Refusal>
        ensures { result ≡ own self x at.at }
    {
        let kind = x.kind;
        match kind {
            32 => self.declarable(x.p, at),
            33 => self.settable(x.p, at),
            35 => self.declarable(x.p, at),
            _ => Ok(()),
        }
    }

    // It goes into one of two sets and out of the other, by whether a loop's FOR declares it.
    fn declares(self, x: u32, in_loop: bool) -> Slots
        ensures { result ≡ declares self x in_loop }
    {
        Slots {
            defined: put(self.defined, x, !in_loop),
            fixed: put(self.fixed, x, in_loop),
            declared: put(self.declared, x, true),
        }
    }

    // A DEF's slot is visible after its expression, a FOR's in the statement that follows.
    fn shown(self, x: Record) -> Slots
        ensures { result ≡ shown self x }
    {
        let kind = x.kind;
        match kind {
            32 => self.declares(x.p, false),
            35 => self.declares(x.p, true),
            _ => self,
        }
    }
}

// From the cursor on, the first record that is no expression's. No iterator: the cursor hands itself back, and where it stands is the answer.
#[tactic(auto, using(crate::proofs::ScopeSteps::seek_over))]
fn expressions(table: &[u32], start: Reader, slots: Slots) -> Result<Reader, Refusal>
    ensures { result ≡ past (seek slots start.at (drop start.at (records_of table.now))) }
{
    let mut at = start;
    while let Some((x, next)) = at.next(table) {
        let kind = x.kind;
        match kind {
            20..=28 => {
                if slots.hides(x) {
                    return Err(at.refusal(Reason::Scope));
                }
            }
            _ => {
                return Ok(at);
            }
        }
        at = next;
    }
    Ok(at)
}

// The stage: what it carries are the slots.
#[derive(Clone, Copy)]
struct Scoping;

impl Stage for Scoping {
    type State = Slots;

    ghost enters = { λ s t. entering t };

    ghost closes = { closed_by };

    fn enter(
        &self,
        table: &[u32],
        at: Reader,
        x: Record,
        next: Reader,
        slots: Slots,
    ) -> Result<(Reader, Slots), Refusal> {
        slots.own(x, at)?;
        let past = expressions(table, next, slots)?;
        Ok((past, slots.shown(x)))
    }

    // What was visible outside is visible again, unless it is a SEQ's.
    fn leave(&self, kind: u32, outside: Slots, inside: Slots) -> Slots {
        if kind == 31 {
            return inside;
        }
        Slots {
            declared: inside.declared,
            ..outside
        }
    }
}

// So many functions from the cursor on. Types has a loop of its own, since it notes something of each function for the later ones.
#[tactic(auto, using(crate::proofs::Walking::funcs_all, crate::proofs::Walking::funcs_end, crate::proofs::ScopeSteps::scope_more), unfolding(crate::specs::Scoped::scoping))]
fn functions(table: &[u32], start: Reader, count: u32) -> Result<(), Refusal>
    ensures { result ≡ funcs_from (scoped_func table.now) table.now count tt start.at }
{
    let mut at = start;
    for f in 0..count {
        let Some((x, next)) = at.next(table) else {
            return Ok(());
        };
        let (past, _) = statement(&Scoping, table, next, 16, Slots::parameters(x.p))?;
        at = past;
    }
    Ok(())
}

// The heading is read for itself, as each stage does: no stage hands anything to the next.
#[tactic(auto, unfolding(crate::specs::Scoped::scoped, crate::specs::Passes::staged))]
pub fn scope(table: &[u32]) -> Result<(), Refusal>
    ensures { result ≡ scoped table.now }
{
    let heading = program(table);
    functions(table, heading.first, heading.functions)
}
