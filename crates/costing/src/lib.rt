// The cost of a script table that was judged: its core records, the steps of its functions (refusal 12) and their deepest IF nestings. Counted by the translation's
// figures; nothing is written.
#![tactic(auto)]

mod count;
mod statement;

ghost use Rattle.std.specs.Prelude.{◌≡◌};
ghost use Rattle.costing.specs.Totals.{totals, outcome, function_at, functions_from, counted};

use count::{Count, Known};
use scoping::passes::{note, program};
use tape::held::{LIMIT, more, short};
use translation::Tape;
use word::Refusal;
use word::reason::Reason;

// Function f, with six records of its own and three steps; and what is kept of it for the later ones. The depths are the caller's, who hands them on to the
// translation; the rest ends here.
#[tactic(auto, using(crate::proofs::Turns::function_end, crate::proofs::Turns::function_found), unfolding(crate::specs::Totals::body_at, crate::specs::Totals::keeping))]
fn function(
    table: &[u32],
    known: &mut Known,
    depths: &mut [u32; 16],
    from: Count,
    f: usize,
) -> Count
    ensures { totals result known.new.params known.new.steps depths.new
        ≡ function_at table.now f (totals from known.old.params known.old.steps depths.old) }
{
    let Some((x, next)) = from.at.next(table) else {
        return from;
    };
    let start = Count {
        at: next,
        records: more(from.records, 6),
        steps: 3,
        deepest: 0,
    };
    let body = known.statement(table, start, 0, 16);
    note(&mut known.params, f, x.p);
    note(&mut known.steps, f, short(body.steps));
    note(depths, f, short(body.deepest));
    body
}

// The functions one after another, to the first that is over the limit: exactly so many steps pass (12).
#[tactic(auto, using(crate::proofs::Turns::functions_on, crate::proofs::Turns::functions_over, crate::proofs::Turns::functions_end))]
fn functions(
    table: &[u32],
    known: &mut Known,
    depths: &mut [u32; 16],
    from: Count,
    n: usize,
) -> Result<Tape, Refusal>
    ensures { outcome result depths.new
        ≡ functions_from table.now n 0 (totals from known.old.params known.old.steps depths.old) }
{
    let mut here = from;
    for f in 0..n {
        let next = function(table, known, depths, here, f);
        if next.steps > LIMIT as usize {
            return Err(here.at.refusal(Reason::Cost));
        }
        here = next;
    }
    Ok(Tape {
        records: short(here.records) as usize,
        steps: short(here.steps),
    })
}

// What the tape of the whole table comes to, and the deepest IF nestings. PROGRAM and the arrays have a record each, so before the first function there are as many as it
// has before it in the table.
#[tactic(auto, unfolding(crate::specs::Totals::counted))]
pub fn measure(table: &[u32], depths: &mut [u32; 16]) -> Result<Tape, Refusal>
    ensures { outcome result depths.new ≡ counted table.now depths.old }
{
    let heading = program(table);
    let first = heading.first;
    let start = Count {
        at: first,
        records: first.at,
        steps: 0,
        deepest: 0,
    };
    let mut known = Known {
        params: [0; 16],
        steps: [0; 16],
    };
    functions(table, &mut known, depths, start, heading.functions as usize)
}
