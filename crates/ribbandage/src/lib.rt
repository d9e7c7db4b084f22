// The library that others link: the compiler, the check and the machine as C functions. A refusal's number is 0 where there is none. C has no Result, so an
// answer is a struct of numbers, as host/ribbandage.h has it.
#![tactic(auto, unfolding(crate::specs::Answers::compiled, crate::specs::Answers::checked, crate::specs::Answers::ran))]

ghost use Rattle.std.specs.Prelude.{◌≡◌};
ghost use Rattle.tape.specs.Check.{check};
ghost use Rattle.machine.specs.Run.{run};
ghost use Rattle.translation.specs.Compile.{compile};
ghost use Rattle.ribbandage.specs.Answers.{compiled, checked, ran};

use checker::check::check;
use machine::Ran;
use translation::Tape;
use word::Refusal;

// A table that was compiled: the records written and the exposed function's steps; or the refusal's number and place.
#[repr(C)]
#[derive(Clone, Copy)]
pub struct RibbandCompiled {
    pub number: u32,
    pub steps: u32,
    pub records: usize,
    pub place: usize,
}

// A tape that was checked: the steps of its exposed function; or the refusal's number and place.
#[repr(C)]
#[derive(Clone, Copy)]
pub struct RibbandChecked {
    pub number: u32,
    pub steps: u32,
    pub place: usize,
}

// A run: its case is 0 for Done, with value and steps; 1 for Stopped, with the steps done and, as the place, the record of the next counted step; 2 for
// Refused, with number and place.
#[repr(C)]
#[derive(Clone, Copy)]
pub struct RibbandRan {
    pub case: u32,
    pub number: u32,
    pub value: u32,
    pub steps: u32,
    pub place: usize,
}

impl From<Result<Tape, Refusal>> for RibbandCompiled {
    ghost from_gives = { λ answer it. it ≡ compiled answer };

    fn from(answer: Result<Tape, Refusal>) -> RibbandCompiled {
        match answer {
            Ok(Tape { records, steps }) => RibbandCompiled {
                number: 0,
                steps,
                records,
                place: 0,
            },
            Err(Refusal { number, place }) => RibbandCompiled {
                number,
                steps: 0,
                records: 0,
                place,
            },
        }
    }
}

impl From<Result<u32, Refusal>> for RibbandChecked {
    ghost from_gives = { λ answer it. it ≡ checked answer };

    fn from(answer: Result<u32, Refusal>) -> RibbandChecked {
        match answer {
            Ok(steps) => RibbandChecked {
                number: 0,
                steps,
                place: 0,
            },
            Err(Refusal { number, place }) => RibbandChecked {
                number,
                steps: 0,
                place,
            },
        }
    }
}

impl From<Result<Ran, Refusal>> for RibbandRan {
    ghost from_gives = { λ answer it. it ≡ ran answer };

    fn from(answer: Result<Ran, Refusal>) -> RibbandRan {
        match answer {
            Ok(Ran::Done { value, steps }) => RibbandRan {
                case: 0,
                number: 0,
                value,
                steps,
                place: 0,
            },
            Ok(Ran::Stopped { steps, record }) => RibbandRan {
                case: 1,
                number: 0,
                value: 0,
                steps,
                place: record,
            },
            Err(Refusal { number, place }) => RibbandRan {
                case: 2,
                number,
                value: 0,
                steps: 0,
                place,
            },
        }
    }
}

#[unsafe(no_mangle)]
pub extern "C" fn ribband_compile(table: &[u32], out: &mut [u32]) -> RibbandCompiled
    ensures { (result ≡ compiled (compile table.now out.old).answer)
        × (out.new ≡ (compile table.now out.old).out) }
{
    compiler::compile(table, out).into()
}

#[unsafe(no_mangle)]
pub extern "C" fn ribband_check(tape: &[u32]) -> RibbandChecked
    ensures { result ≡ checked (check tape.now) }
{
    check(tape).into()
}

#[unsafe(no_mangle)]
pub extern "C" fn ribband_run(
    tape: &[u32],
    arguments: &[u32],
    memory: &mut [u8],
    limit: u32,
) -> RibbandRan
    ensures { (result ≡ ran (run tape.now arguments.now memory.old limit).answer)
        × (memory.new ≡ (run tape.now arguments.now memory.old limit).memory) }
{
    machine::run(tape, arguments, memory, limit).into()
}
