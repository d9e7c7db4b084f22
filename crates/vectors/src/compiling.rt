// A case that is compiled: its answer and every word of the output are compared, those that are to stay as they were too.
use crate::decoding::Cases;
use std::alloc::{AllocError, Global};
use translation::Tape;
use word::Refusal;

// What the output holds before.
const MARK: u32 = 7;

// More words than the longest tape of the file needs: a longer output would be given the same answer.
const ROOM: usize = 20480;

// As many as a table has at most, and some more.
const TABLE: usize = 16400;

// A table that was compiled: the tape, where the file has the table accepted, and whether its answer came out.
#[derive(Drop)]
pub struct Compiled {
    pub tape: Option<Vec<u32>>,
    pub fine: bool,
}

pub fn compile_case(alloc: Global, cases: &mut Cases) -> Result<Compiled, AllocError> {
    let given = (cases.number() as usize).min(ROOM);
    let table: Vec<u32> = cases.list(alloc, TABLE)?;
    let mut out = vec![in alloc; MARK; ROOM]?;
    let answer = compiler::compile(&table, &mut out[..given]);
    if cases.number() != 0 {
        let refusal = Refusal {
            number: cases.number(),
            place: cases.number() as usize,
        };
        return Ok(Compiled {
            tape: None,
            fine: answer == Err(refusal) && untouched(&out),
        });
    }
    let (words, same) = cases.compare(&out);
    let tape = Tape {
        records: words / 4,
        steps: cases.number(),
    };
    let fine = answer == Ok(tape) && same && out.get(words..).is_some_and(untouched);
    out.truncate(words);
    Ok(Compiled {
        tape: Some(out),
        fine,
    })
}

fn untouched(out: &[u32]) -> bool {
    out.iter().all(|x| *x == MARK)
}
