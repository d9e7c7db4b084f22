// The compiler: from a table of script records to a core tape.
#![tactic(auto)]

mod answer;
mod function;
mod masks;
mod statement;

ghost use Rattle.std.specs.Prelude.{◌≡◌};
ghost use Rattle.translation.specs.Compile.{compile};

use answer::write_out;
use stages::judge::judge;
use translation::Tape;
use word::Refusal;

// Judges the table (1 to 11), then its cost (12, 13), and writes its tape: the answer and every word of the output at exit are the definition's. A
// refusal leaves the output as it was, and an acceptance changes the records written and no other word.
pub fn compile(table: &[u32], out: &mut [u32]) -> Result<Tape, Refusal>
    ensures { record { answer = result; out = out.new } ≡ compile table.now out.old }
{
    judge(table)?;
    write_out(table, out)
}
