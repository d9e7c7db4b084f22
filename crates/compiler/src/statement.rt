// Statements, by the translation's clauses. A part is left with the walk past it. The source stays as it is and the place changes from statement to statement, so they
// are two. An expression and what is written behind it are two lines each time, which a closure for the second would not shorten.
ghost use Rattle.std.specs.Prelude.{◌≡◌, ℕ, ◌+◌, ◌≤◌};
ghost use Rattle.script.specs.Table.{read_s};
ghost use Rattle.tape.specs.Instruction.{def};
ghost use Rattle.translation.specs.Translate.{layout};
ghost use Rattle.emitting.specs.Emitting.{puts, assigns, gives, flips};
ghost use Rattle.emitting.specs.Walking.{Desk, on, desk_of, walk_e, head_s, walk_s, putting};

use crate::masks::{Place, assign, flip, give, masked, store_at};
use emitting::expression::expression;
use emitting::walk::{Source, Walk};
use tape::instruction::Instruction::{Def, End, For};
use word::Record;

// DEF x e.
#[tactic(auto, unfolding(tape::specs::Named::named))]
fn define(source: Source, out: &mut [u32], from: Walk, x: u32) -> Walk
    ensures { desk_of out.new result ≡ on (puts (def x)) (walk_e source.entry.params.now source.entry.table.now 16 (desk_of out.old from)) }
{
    let e = expression(source, out, from, 16);
    e.put(out, Def(x))
}

// SET x e.
fn set(source: Source, out: &mut [u32], from: Walk, place: Place, x: u32) -> Walk
    ensures { desk_of out.new result ≡ on (assigns (layout place.slots) place.ifs x) (walk_e source.entry.params.now source.entry.table.now 16 (desk_of out.old from)) }
{
    let e = expression(source, out, from, 16);
    e.with(assign(out, e.emitter, place, x))
}

// PUT a i e: the index is written twice.
#[tactic(auto, unfolding(emitting::specs::Walking::putting))]
fn put(source: Source, out: &mut [u32], from: Walk, place: Place, a: u32) -> Walk
    ensures { desk_of out.new result ≡ putting source.entry.params.now source.entry.table.now (layout place.slots) place.ifs a (desk_of out.old from) }
{
    let i = expression(source, out, from, 16);
    let e = expression(source, out, i, 16);
    let second = from.with(masked(out, e.emitter, place));
    let again = expression(source, out, second, 16);
    e.with(store_at(out, again.emitter, place, a))
}

// RETURN e.
fn give_back(source: Source, out: &mut [u32], from: Walk, place: Place) -> Walk
    ensures { desk_of out.new result ≡ on (gives (layout place.slots) place.ifs) (walk_e source.entry.params.now source.entry.table.now 16 (desk_of out.old from)) }
{
    let e = expression(source, out, from, 16);
    e.with(give(out, e.emitter, place))
}

// Between IF's branches.
fn flipped(out: &mut [u32], from: Walk, place: Place) -> Walk
    ensures { desk_of out.new result ≡ on (flips (layout place.slots) place.ifs) (desk_of out.old from) }
{
    from.with(flip(out, from.emitter, place))
}

// A statement that holds no other: SKIP, DEF, SET, PUT or RETURN, whose record was read.
#[tactic(auto, unfolding(script::specs::Table::read_s, emitting::specs::Walking::head_s))]
fn single(source: Source, out: &mut [u32], here: Walk, place: Place, x: Record) -> Walk
    requires { (x.kind ≡ 31 → ⊥) × (x.kind ≡ 35 → ⊥) × (x.kind ≡ 36 → ⊥) }
    ensures { (f : ℕ → Desk → Desk) → desk_of out.new result ≡ head_s source.entry.params.now source.entry.table.now (layout place.slots) f place.ifs (desk_of out.old here) (read_s x) }
{
    let kind = x.kind;
    match kind {
        30 => here,
        32 => define(source, out, here, x.p),
        33 => set(source, out, here, place, x.p),
        34 => put(source, out, here, place, x.p),
        _ => give_back(source, out, here, place),
    }
}

// The statement where the walk stands, which may hold others to the depth `left`, itself counted.
#[tactic(auto, using(script::proofs::Times::times_more, script::proofs::Times::times_over, emitting::proofs::Stepping::walk_s_none, emitting::proofs::Stepping::walk_s_end, emitting::proofs::Stepping::walk_s_found), unfolding(tape::specs::Named::named, emitting::specs::Walking::head_s, emitting::specs::Walking::looping, emitting::specs::Walking::branching))]
pub(crate) fn statement(
    source: Source,
    out: &mut [u32],
    from: Walk,
    place: Place,
    left: u32,
) -> Walk
    requires { place.ifs + left ≤ 16 }
    ensures { desk_of out.new result ≡ walk_s source.entry.params.now source.entry.table.now (layout place.slots) left place.ifs (desk_of out.old from) }
{
    if left == 0 {
        return from;
    }
    let Some((x, next)) = from.reader.next(source.table) else {
        return from;
    };
    let here = from.reading(next);
    let kind = x.kind;
    match kind {
        31 => {
            let parts = x.p;
            let mut last = here;
            for i in 0..parts {
                last = statement(source, out, last, place, left - 1);
            }
            last
        }
        35 => {
            let open = here.put(
                out,
                For {
                    slot: x.p,
                    from: x.q,
                    to: x.r,
                },
            );
            let body = statement(source, out, open, place, left - 1);
            body.put(out, End)
        }
        36 => {
            // its condition, into the slot that it has
            let first = define(source, out, here, place.condition());
            let inside = Place {
                slots: place.slots,
                ifs: place.ifs + 1,
            };
            let then = statement(source, out, first, inside, left - 1);
            let second = flipped(out, then, place);
            statement(source, out, second, inside, left - 1)
        }
        _ => single(source, out, here, place, x),
    }
}
