// A case that is run: its answer and every byte of its memory are compared. Of a plain meaning the value and the bytes are.
use crate::decoding::Cases;
use machine::Ran;
use std::alloc::{AllocError, Global};
use word::Refusal;

// More arguments and bytes than a tape of the file takes.
const ARGUMENTS: usize = 16;

const MEMORY: usize = 32768;

// What stands in the file: a run's answer, a plain meaning's value, or what no run answers.
#[derive(Clone, Copy, Debug, PartialEq, Eq)]
pub enum Wanted {
    Answer(Result<Ran, Refusal>),
    Value(u32),
    Nothing,
}

impl Wanted {
    fn is(self, ran: Result<Ran, Refusal>) -> bool {
        match self {
            Wanted::Answer(answer) => ran == answer,
            Wanted::Value(wanted) => matches!(ran, Ok(Ran::Done { value, .. }) if value == wanted),
            Wanted::Nothing => false,
        }
    }
}

// How a case of a kind ends: its limit and what is wanted are read, and the file's changes are made in the memory.
pub trait Ending {
    fn read(cases: &mut Cases, memory: &mut [u8]) -> (u32, Wanted);
}

// A run's limit and its answer; and a plain meaning's value, for a run to its end.
pub struct RunAnswer;

pub struct PlainValue;

impl Ending for RunAnswer {
    fn read(cases: &mut Cases, memory: &mut [u8]) -> (u32, Wanted) {
        run_answer(cases, memory)
    }
}

impl Ending for PlainValue {
    fn read(cases: &mut Cases, memory: &mut [u8]) -> (u32, Wanted) {
        plain_value(cases, memory)
    }
}

// Runs the tape on the arguments and memory that stand in the file: whether the answer and the bytes came out.
pub fn run_case<E: Ending>(
    alloc: Global,
    cases: &mut Cases,
    tape: &[u32],
) -> Result<bool, AllocError> {
    let arguments: Vec<u32> = cases.list(alloc, ARGUMENTS)?;
    let mut memory: Vec<u8> = cases.list(alloc, MEMORY)?;
    let mut expected = memory.to_vec(alloc)?;
    let (limit, wanted) = E::read(cases, &mut expected);
    let ran = machine::run(tape, &arguments, &mut memory, limit);
    Ok(wanted.is(ran) && memory == expected)
}

// A refusal leaves the memory as it was.
pub fn run_answer(cases: &mut Cases, memory: &mut [u8]) -> (u32, Wanted) {
    let limit = cases.number();
    let case = cases.number();
    let first = cases.number();
    let second = cases.number();
    if case == 2 {
        let refusal = Refusal {
            number: first,
            place: second as usize,
        };
        return (limit, Wanted::Answer(Err(refusal)));
    }
    cases.changes(memory);
    let wanted = match case {
        0 => Wanted::Answer(Ok(Ran::Done {
            value: first,
            steps: second,
        })),
        1 => Wanted::Answer(Ok(Ran::Stopped {
            steps: first,
            record: second as usize,
        })),
        3 => Wanted::Value(first),
        _ => Wanted::Nothing,
    };
    (limit, wanted)
}

pub fn plain_value(cases: &mut Cases, memory: &mut [u8]) -> (u32, Wanted) {
    let value = cases.number();
    cases.changes(memory);
    (u32::MAX, Wanted::Value(value))
}
