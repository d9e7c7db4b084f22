// The machine: checks any tape and runs it on arguments and a lent memory, under a step limit.
#![tactic(auto)]

mod calls;
mod course;
mod loops;
mod program;
mod reading;
mod registers;
mod stacks;
mod step;
mod values;

ghost use Rattle.std.specs.Prelude.{◌≡◌};
ghost use Rattle.machine.specs.Run.{run};

use checker::check::check;
use course::admit;
use word::Refusal;

// Done, with the value and the steps; or Stopped by the limit, with the steps done and the record of the next counted step.
#[derive(Clone, Copy, Debug, PartialEq, Eq)]
pub enum Ran {
    Done { value: u32, steps: u32 },
    Stopped { steps: u32, record: usize },
}

// Checks the tape (21 to 30), admits the run (31, 32) and runs it: the answer and the bytes at exit are those of the core rules. A refusal leaves every byte
// as it was.
#[tactic(auto, unfolding(crate::specs::Run::run, crate::specs::Run::run_by, crate::specs::Flat::is_accepted))]
pub fn run(tape: &[u32], arguments: &[u32], memory: &mut [u8], limit: u32) -> Result<Ran, Refusal>
    ensures { record { answer = result; memory = memory.new }
        ≡ run tape.now arguments.now memory.old limit }
{
    check(tape)?;
    admit(tape, arguments, memory, limit)
}
