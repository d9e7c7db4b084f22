// Recursive descent over prefix records: the depth that is left falls at each nested expression and statement, and a reader moves from part to
// part. Refusals 2 to 5, and 7. A table is walked where it lies: there is no heap to make a tree in.
ghost use Rattle.std.specs.Prelude.{◌≡◌, true, not, ◌&&◌, eqb};
ghost use Rattle.script.specs.Table.{read_s};
ghost use Rattle.script.specs.Parse.{parts, parse_e, nests, inside, sequence, parse_s};
ghost use Rattle.reading.specs.Structure.{nested, walk_of};

use crate::leads::{due, expression_leads, statement_leads};
use script::Env;
use script::shape::{expressions_in, parts_in, statements_in};
use word::reader::Reader;
use word::reason::Reason;
use word::{Record, Refusal};

// How many IFs and FORs lie round a statement.
#[derive(Clone, Copy, Debug, PartialEq, Eq)]
pub struct Nesting {
    pub ifs: u32,
    pub fors: u32,
}

// So many expressions, one after another, each with the depth `left`: the reader past them. This loop and that of statements are alike; each is in a
// cycle of calls of its own, which one function for both would join.
#[cycle(expression_expressions)]
#[tactic(auto, using(crate::proofs::Descending::parts_run, crate::proofs::Descending::run_more, crate::proofs::Descending::run_all))]
fn expressions(
    table: &[u32],
    at: Reader,
    count: u32,
    left: u32,
    env: &Env,
) -> Result<Reader, Refusal>
    ensures { result ≡ walk_of (parts (parse_e left env.now table.now) count at.at) }
{
    let mut here = at;
    for i in 0..count {
        here = expression(table, here, left, env)?;
    }
    Ok(here)
}

// The expression at the reader, which may hold others to the depth `left`, itself counted. One without parts, as every second is, needs no call.
#[cycle(expression_expressions)]
#[tactic(auto, using(crate::proofs::Descending::expression_is, crate::proofs::Descending::parts_none))]
fn expression(table: &[u32], at: Reader, left: u32, env: &Env) -> Result<Reader, Refusal>
    ensures { result ≡ walk_of (parse_e left env.now table.now at.at) }
{
    let (x, next) = due(table, at)?;
    expression_leads(x, at, env)?;
    at.require(left != 0, Reason::TooDeep)?;
    let count = parts_in(x, &env.params);
    if count == 0 {
        return Ok(next);
    }
    expressions(table, next, count, left - 1, env)
}

// 7: whether a statement lies no deeper than it may: there is depth left, and it is no ninth IF or FOR.
#[tactic(auto, using(std::proofs::lemmas::Bool::Decides::nat_tests), unfolding(script::specs::Parse::nests, script::specs::Table::read_s))]
fn nests(left: u32, round: Nesting, x: Record) -> bool
    ensures { result ≡ not (eqb left 0) && nests (nested round) (read_s x) }
{
    if left == 0 {
        return false;
    }
    let kind = x.kind;
    match kind {
        35 => round.fors < 8,
        36 => round.ifs < 8,
        _ => true,
    }
}

// How many lie round a statement's parts.
#[tactic(auto, using(std::proofs::lemmas::Bool::Decides::nat_tests), unfolding(script::specs::Parse::inside, script::specs::Parse::nests, script::specs::Table::read_s))]
fn inside(round: Nesting, x: Record) -> Nesting
    requires { nests (nested round) (read_s x) ≡ true }
    ensures { nested result ≡ inside (nested round) (read_s x) }
{
    let kind = x.kind;
    match kind {
        35 => Nesting {
            fors: round.fors + 1,
            ..round
        },
        36 => Nesting {
            ifs: round.ifs + 1,
            ..round
        },
        _ => round,
    }
}

// So many statements, one after another, each with the depth `left`: the reader past them.
#[cycle(statement_statements)]
#[tactic(auto, using(crate::proofs::Descending::sequence_run, crate::proofs::Descending::run_more, crate::proofs::Descending::run_all))]
pub(crate) fn statements(
    table: &[u32],
    at: Reader,
    count: u32,
    left: u32,
    round: Nesting,
    env: &Env,
) -> Result<Reader, Refusal>
    ensures { result ≡ walk_of (sequence (parse_s left (nested round) env.now table.now) count at.at) }
{
    let mut here = at;
    for i in 0..count {
        here = statement(table, here, left, round, env)?;
    }
    Ok(here)
}

// The statement at the reader, which may hold others to the depth `left`, itself counted: its expressions, and then its statements.
#[cycle(statement_statements)]
#[tactic(auto, using(crate::proofs::Descending::statement_is, crate::proofs::Descending::sequence_none))]
fn statement(
    table: &[u32],
    at: Reader,
    left: u32,
    round: Nesting,
    env: &Env,
) -> Result<Reader, Refusal>
    ensures { result ≡ walk_of (parse_s left (nested round) env.now table.now at.at) }
{
    let (x, next) = due(table, at)?;
    statement_leads(x, at, env)?;
    at.require(nests(left, round, x), Reason::TooDeep)?;
    let after = expressions(table, next, expressions_in(x), 16, env)?;
    let count = statements_in(x);
    if count == 0 {
        return Ok(after);
    }
    statements(table, after, count, left - 1, inside(round, x), env)
}
