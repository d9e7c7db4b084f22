// The cases, one after another, and what is counted of them.
use crate::compiling::{Compiled, compile_case};
use crate::decoding::Cases;
use crate::running::{PlainValue, RunAnswer, run_case};
use std::alloc::{AllocError, Global};
use std::fmt;
use word::operators::plus;

// What a case does, by its number in the file. A number that stands for nothing is taken as the last.
#[derive(Clone, Copy, Debug, PartialEq, Eq)]
enum Kind {
    Compile,
    Run,
    Plain,
    RunLast,
}

impl From<u32> for Kind {
    fn from(number: u32) -> Kind {
        match number {
            1 => Kind::Compile,
            2 => Kind::Run,
            3 => Kind::Plain,
            _ => Kind::RunLast,
        }
    }
}

#[derive(Clone, Copy, Debug, Default, PartialEq, Eq)]
pub struct Counts {
    compiled: u32,
    run: u32,
    plain: u32,
    differ: u32,
}

impl fmt::Display for Counts {
    fn fmt<W: fmt::Write>(&self, f: &mut fmt::Formatter<W>) -> fmt::Result {
        let Counts {
            compiled,
            run,
            plain,
            differ,
        } = self;
        write!(
            f,
            "compiled {compiled}\nrun {run}\nplain {plain}\ndiffer {differ}"
        )
    }
}

// More words than a tape of the file has.
const GIVEN: usize = 4096;

// The latest tape that was compiled, and the one that stood in the file, where that is the later one.
#[derive(Drop)]
struct Latest {
    own: Vec<u32>,
    given: Option<Vec<u32>>,
}

pub fn all_cases(alloc: Global, mut cases: Cases) -> Result<Counts, AllocError> {
    let _version = cases.number();
    let mut latest = Latest {
        own: Vec::new(alloc),
        given: None,
    };
    let mut counts = Counts::default();
    for _ in 0..cases.number() {
        let fine = one_case(alloc, &mut cases, &mut latest, &mut counts)?;
        if !fine {
            counts.differ = plus(counts.differ, 1);
        }
    }
    Ok(counts)
}

// Whether its answer came out.
fn one_case(
    alloc: Global,
    cases: &mut Cases,
    latest: &mut Latest,
    counts: &mut Counts,
) -> Result<bool, AllocError> {
    match Kind::from(cases.number()) {
        Kind::Compile => {
            counts.compiled = plus(counts.compiled, 1);
            let Compiled { tape, fine } = compile_case(alloc, cases)?;
            if let Some(tape) = tape {
                *latest = Latest {
                    own: tape,
                    given: None,
                };
            }
            Ok(fine)
        }
        Kind::Run => {
            counts.run = plus(counts.run, 1);
            let tape = cases.list(alloc, GIVEN)?;
            let fine = run_case::<RunAnswer>(alloc, cases, &tape)?;
            latest.given = Some(tape);
            Ok(fine)
        }
        Kind::Plain => {
            counts.plain = plus(counts.plain, 1);
            run_case::<PlainValue>(alloc, cases, &latest.own)
        }
        Kind::RunLast => {
            counts.run = plus(counts.run, 1);
            let tape = latest.given.as_ref().unwrap_or(&latest.own);
            run_case::<RunAnswer>(alloc, cases, tape)
        }
    }
}
