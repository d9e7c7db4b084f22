// The answer to a table that has no fault before its cost: 12, 13, or the tape.
ghost use Rattle.std.specs.Prelude.{◌≡◌, ℕ};
ghost use Rattle.script.specs.Tree.{Program};
ghost use Rattle.script.specs.Parse.{parsed, read_table};
ghost use Rattle.translation.specs.Compile.{costs, unless_fault};
ghost use Rattle.compiler.specs.Writing.{answered};

use crate::function::translate;
use costing::measure;
use translation::Tape;
use word::Refusal;
use word::reason::Reason;

// The cost is counted first; no word is written before both limits are kept.
pub fn write_out(table: &[u32], out: &mut [u32]) -> Result<Tape, Refusal>
    ensures { (p : Program) (i : ℕ) → read_table table.now ≡ parsed p i → answered result out.new ≡ unless_fault (costs p) p out.old }
{
    let mut depths = [0u32; 16];
    let tape = measure(table, &mut depths)?;
    if out.len() / 4 < tape.records {
        return Err(Refusal::new(Reason::Output, tape.records));
    }
    translate(table, &depths, out);
    Ok(tape)
}
