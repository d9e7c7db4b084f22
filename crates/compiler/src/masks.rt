// The context C and the mask M, and what is written with them behind an expression.
#![tactic(auto, unfolding(word::specs::Code::code, tape::specs::Named::named, translation::specs::Translate::context, translation::specs::Translate::masking, emitting::specs::Emitting::lay_e, emitting::specs::Emitting::masks, emitting::specs::Emitting::merges, emitting::specs::Emitting::assigns, emitting::specs::Emitting::stores, emitting::specs::Emitting::gives, emitting::specs::Emitting::flips))]

ghost use Rattle.std.specs.Prelude.{◌≡◌, ◌≤◌, ◌+◌};
ghost use Rattle.translation.specs.Translate.{layout, context, masking};
ghost use Rattle.emitting.specs.Emitting.{sheet, lay_e, masks, merges, assigns, stores, gives, flips};

use emitting::emitter::Emitter;
use emitting::expression::{AND, OR};
use tape::instruction::Instruction::{Bin, Get, Lit, Not, Put, Set, Var};
use word::operators::TRUE;

// Where a statement stands: how many slots its function has, and how many IFs lie round it. Behind the function's slots lie those of the translation: rval, rnset, and
// a condition for each IF.
#[derive(Clone, Copy, Debug, PartialEq, Eq)]
pub(crate) struct Place {
    pub slots: u32,
    pub ifs: u32,
    ghost small: { (slots ≤ 32) × (ifs ≤ 16) },
}

impl Place {
    fn rval(self) -> u32
        ensures { result ≡ (layout self.slots).rval }
    {
        self.slots
    }

    fn rnset(self) -> u32
        ensures { result ≡ (layout self.slots).rnset }
    {
        self.slots + 1
    }

    // The condition of an IF that stands here.
    pub fn condition(self) -> u32
        ensures { result ≡ (layout self.slots).condition self.ifs }
    {
        self.slots + 2 + self.ifs
    }
}

// C: LIT TRUE, and within each IF its condition `&` the context round it.
pub(crate) fn context(out: &mut [u32], to: Emitter, place: Place) -> Emitter
    ensures { sheet out.new result ≡ lay_e (context (layout place.slots) place.ifs) (sheet out.old to) }
{
    if place.ifs == 0 {
        return to.put(out, Lit(TRUE));
    }
    let round = Place {
        slots: place.slots,
        ifs: place.ifs - 1,
    };
    let condition = to.put(out, Var(round.condition()));
    context(out, condition, round).put(out, Bin(AND))
}

// M: C `&` rnset.
fn mask(out: &mut [u32], to: Emitter, place: Place) -> Emitter
    ensures { sheet out.new result ≡ lay_e (masking (layout place.slots) place.ifs) (sheet out.old to) }
{
    let c = context(out, to, place);
    let rnset = c.put(out, Var(place.rnset()));
    rnset.put(out, Bin(AND))
}

// A new value `&` M.
pub(crate) fn masked(out: &mut [u32], to: Emitter, place: Place) -> Emitter
    ensures { sheet out.new result ≡ masks (layout place.slots) place.ifs (sheet out.old to) }
{
    let m = mask(out, to, place);
    m.put(out, Bin(AND))
}

// `|` the old value, where M is FALSE.
pub(crate) fn merged(out: &mut [u32], to: Emitter, place: Place) -> Emitter
    ensures { sheet out.new result ≡ merges (layout place.slots) place.ifs (sheet out.old to) }
{
    let m = mask(out, to, place);
    let not = m.put(out, Not);
    let old = not.put(out, Bin(AND));
    old.put(out, Bin(OR))
}

// SET x, behind the expression.
pub(crate) fn assign(out: &mut [u32], to: Emitter, place: Place, x: u32) -> Emitter
    ensures { sheet out.new result ≡ assigns (layout place.slots) place.ifs x (sheet out.old to) }
{
    let value = masked(out, to, place);
    let old = value.put(out, Var(x));
    let both = merged(out, old, place);
    both.put(out, Set(x))
}

// PUT a, behind the masked value and the index, which was written a second time.
pub(crate) fn store_at(out: &mut [u32], to: Emitter, place: Place, a: u32) -> Emitter
    ensures { sheet out.new result ≡ stores (layout place.slots) place.ifs a (sheet out.old to) }
{
    let old = to.put(out, Get(a));
    let both = merged(out, old, place);
    both.put(out, Put(a))
}

// RETURN, behind the expression: rval, and rnset.
pub(crate) fn give(out: &mut [u32], to: Emitter, place: Place) -> Emitter
    ensures { sheet out.new result ≡ gives (layout place.slots) place.ifs (sheet out.old to) }
{
    let value = masked(out, to, place);
    let old = value.put(out, Var(place.rval()));
    let both = old.put(out, Bin(OR));
    let rval = both.put(out, Set(place.rval()));
    let rnset = rval.put(out, Var(place.rnset()));
    let c = context(out, rnset, place);
    let not = c.put(out, Not);
    let left = not.put(out, Bin(AND));
    left.put(out, Set(place.rnset()))
}

// Between the branches of an IF its condition becomes its `~`.
pub(crate) fn flip(out: &mut [u32], to: Emitter, place: Place) -> Emitter
    ensures { sheet out.new result ≡ flips (layout place.slots) place.ifs (sheet out.old to) }
{
    let x = place.condition();
    let old = to.put(out, Var(x));
    let not = old.put(out, Not);
    not.put(out, Set(x))
}
