// A run of a checked tape: admitted (31, 32), begun inside the exposed function, and stepped until it is done or the limit is reached.
ghost use Rattle.std.specs.Prelude.{◌≡◌, true, ℕ, ◌+◌, ◌-◌, ◌<◌, ◌≤◌, ◌^◌, length, get_or, Ok};
ghost use Rattle.word.specs.Records.{records, record_at};
ghost use Rattle.tape.specs.Instruction.{read, end, code_of};
ghost use Rattle.tape.specs.Check.{check};
ghost use Rattle.machine.specs.Flat.{fors_of, passes_of, is_accepted, Looping, Ending, Entered, goes_on, answer_at};
ghost use Rattle.machine.specs.Run.{Result, after, result_of, admitted};

use crate::Ran;
use crate::calls::copy;
use crate::program::Program;
use crate::reading::record;
use crate::registers::Registers;
use crate::stacks::{Frame, Loop, Stacks};
use crate::step::{is_free, step};
use word::Refusal;
use word::reason::Reason;

// Whether the run goes on: it is on the tape, and the limit allows the record at hand or that counts nothing.
#[tactic(auto, using(std::proofs::lemmas::Bool::Decides::nat_tests), unfolding(crate::specs::Flat::goes_on, crate::specs::Flat::pick))]
fn going(tape: &[u32], stacks: &Stacks, g: Registers, most: u64) -> bool
    requires { g.at < records tape.now → read (record_at tape.now g.at) ≡ end → Looping tape.now (fors_of stacks.now.loops) g }
    ensures { result ≡ goes_on tape.now (fors_of stacks.now.loops) (passes_of stacks.now.loops) g most }
{
    g.at < tape.len() / 4 && (g.steps < most || is_free(tape, stacks, g))
}

// The answer where the run has stopped. A further pass of a loop counts at its FOR.
#[tactic(auto, using(crate::proofs::Rows::rows), unfolding(crate::specs::Flat::answer_at, crate::specs::Flat::pick))]
fn answer(tape: &[u32], stacks: &Stacks, g: Registers) -> Ran
    requires { Ending tape.now (fors_of stacks.now.loops) g }
    ensures { result ≡ answer_at tape.now (fors_of stacks.now.loops) stacks.now.operands g }
{
    let steps = g.steps as u32;
    if g.at < tape.len() / 4 {
        let record = if tape[g.at * 4] == 20 {
            stacks.loops[g.loops - 1].at as usize
        } else {
            g.at
        };
        Ran::Stopped { steps, record }
    } else {
        Ran::Done {
            value: stacks.operands[g.operands - 1],
            steps,
        }
    }
}

// The run, from inside the exposed function. Arguments, memory and limit as the C function has them.
fn execute(program: &Program, arguments: &[u32], memory: &mut [u8], limit: u32) -> Ran
    requires { Entered program.now.tape.now program.now.starts program.now.places program.now.first (length arguments.now) (length memory.old) }
    ensures { record { answer = Ok result; memory = memory.new }
        ≡ result_of (code_of program.now.tape.now) (after (code_of program.now.tape.now) arguments.now memory.old limit) }
{
    let head = record(program.tape, program.first);
    let mut stacks = Stacks {
        slots: [0; 1024],
        frames: [Frame { back: 0, base: 0 }; 16],
        loops: [Loop { at: 0, pass: 0 }; 128],
        operands: [0; 2048],
    };
    copy(arguments, 0, &mut stacks.slots, 0, arguments.len());
    let mut g = Registers {
        at: program.first + 1,
        operands: 0,
        loops: 0,
        base: 0,
        top: head.q as usize,
        calls: 0,
        steps: 0,
    };
    let most = limit as u64;
    while going(program.tape, &stacks, g, most) {
        g = step(program, &mut stacks, memory, g);
    }
    answer(program.tape, &stacks, g)
}

// 31 and 32, else the run.
#[tactic(auto, using(std::proofs::lemmas::Bool::Decides::nat_tests, crate::proofs::Admitting::first_there, crate::proofs::Admitting::first_params), unfolding(crate::specs::Run::admitted, crate::specs::Run::unless))]
pub(crate) fn admit(
    tape: &[u32],
    arguments: &[u32],
    memory: &mut [u8],
    limit: u32,
) -> Result<Ran, Refusal>
    requires { is_accepted (check tape.now) ≡ true }
    ensures { record { answer = result; memory = memory.new }
        ≡ admitted (code_of tape.now) arguments.now memory.old limit }
{
    let program = Program::new(tape);
    if arguments.len() != record(tape, program.first).p as usize {
        return Err(Refusal::new(Reason::Arguments, 0));
    }
    if memory.len() != program.bytes as usize {
        return Err(Refusal::new(Reason::Memory, 0));
    }
    Ok(execute(&program, arguments, memory, limit))
}
