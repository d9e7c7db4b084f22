// Stores: refusal 11, the first PUT outside the exposed function, which is the last. The kinds are distinct, so no structure is needed: one scan
// from the first FUNC to the last one. Assumes nothing of the table; what it says is meant of one that was read.
ghost use Rattle.std.specs.Prelude.{◌≡◌, drop};
ghost use Rattle.word.specs.Records.{records_of};
ghost use Rattle.stages.specs.Stored.{storing, stored};

use scoping::passes::program;
use word::Refusal;
use word::reader::Reader;
use word::reason::Reason;

// As many functions are left at the exposed one, the last: itself.
const EXPOSED: u32 = 1;

// From the cursor on, with so many functions left, the exposed one counted. No iterator: the cursor hands itself back, and its place is the refusal's.
fn first_store(table: &[u32], start: Reader, functions: u32) -> Result<(), Refusal>
    ensures { result ≡ storing functions start.at (drop start.at (records_of table.now)) }
{
    let mut at = start;
    let mut left = functions;
    while let Some((x, next)) = at.next(table) {
        let kind = x.kind;
        match kind {
            34 => {
                return Err(at.refusal(Reason::Store));
            }
            3 => {
                if left <= EXPOSED {
                    return Ok(());
                }
                left -= 1;
            }
            _ => {}
        }
        at = next;
    }
    Ok(())
}

// The heading is read for itself, as each stage does: no stage hands anything to the next.
#[tactic(auto, unfolding(crate::specs::Stored::stored))]
pub fn stores(table: &[u32]) -> Result<(), Refusal>
    ensures { result ≡ stored table.now }
{
    let heading = program(table);
    first_store(table, heading.first, heading.functions)
}
