// The structure of a script table: PROGRAM, its arrays, its functions. Refusals 1 to 7.
ghost use Rattle.std.specs.Prelude.{◌≡◌, ◌≤◌};
ghost use Rattle.script.specs.Parse.{nowhere, parse_funcs, parse_arrays, parse_program};
ghost use Rattle.reading.specs.Structure.{walk_of, structured};

use crate::descent::{Nesting, statements};
use crate::leads::{array_leads, due, function_leads, program_leads};
use script::Env;
use word::reader::Reader;
use word::reason::Reason;
use word::{Refusal, sized};

const OUTERMOST: Nesting = Nesting { ifs: 0, fors: 0 };

// So many ARRAY records.
#[tactic(auto, using(crate::proofs::Programs::arrays_more, crate::proofs::Programs::arrays_all))]
fn arrays(table: &[u32], at: Reader, count: u32) -> Result<Reader, Refusal>
    ensures { result ≡ walk_of (parse_arrays count table.now at.at) }
{
    let mut here = at;
    for i in 0..count {
        let (x, next) = due(table, here)?;
        array_leads(x, here)?;
        here = next;
    }
    Ok(here)
}

// So many functions, each FUNC followed by one statement. Its parameters are known to those after it. This is no stage of scoping's walk: that reads
// what was found in order here, and the Env changes from function to function.
#[tactic(auto, using(crate::proofs::Programs::functions_more, crate::proofs::Programs::functions_all), unfolding(script::specs::Parse::entered, script::specs::Parse::passed, script::specs::Table::function))]
fn functions(table: &[u32], at: Reader, count: u32, arrays: u32) -> Result<Reader, Refusal>
    requires { count ≤ 16 }
    ensures { result ≡ walk_of (parse_funcs count (nowhere arrays) table.now at.at) }
{
    let mut env = Env {
        slots: 0,
        arrays,
        func: 0,
        params: [0; 16],
    };
    let mut here = at;
    for func in 0..count {
        let (x, next) = due(table, here)?;
        function_leads(x, here)?;
        env.slots = x.q;
        here = statements(table, next, 1, 16, OUTERMOST, &env)?;
        env.slots = 0;
        env.func = func + 1;
        env.params[func as usize] = x.p;
    }
    Ok(here)
}

// PROGRAM, its arrays, its functions.
#[tactic(auto, using(crate::proofs::Programs::program_is))]
fn program(table: &[u32]) -> Result<Reader, Refusal>
    ensures { result ≡ walk_of (parse_program table.now) }
{
    let start = Reader::new();
    let (x, next) = due(table, start)?;
    program_leads(x, start)?;
    let after = arrays(table, next, x.q)?;
    functions(table, after, x.p, x.q)
}

// The first record at fault, 1 to 7.
#[tactic(auto, using(std::proofs::lemmas::Bool::Decides::nat_tests, crate::proofs::Programs::stage_is))]
pub fn structure(table: &[u32]) -> Result<(), Refusal>
    ensures { result ≡ structured table.now }
{
    if !sized(4096, table.len()) {
        return Err(Refusal::new(Reason::TableWords, 0));
    }
    let end = program(table)?;
    if end.at < table.len() / 4 {
        return Err(end.refusal(Reason::TableExtra));
    }
    Ok(())
}
