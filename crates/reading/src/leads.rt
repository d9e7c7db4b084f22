// One record, tested where one of a class is due: its kind (2), its unused words (4), its fields (5), the lowest number first.
#![tactic(auto, using(std::proofs::lemmas::Bool::Decides::nat_tests), unfolding(crate::specs::Structure::due_of, crate::specs::Structure::leads, script::specs::Table::lead_by, script::specs::Table::program, script::specs::Table::array, script::specs::Table::function, script::specs::Table::expression, script::specs::Table::read_e, script::specs::Table::write_e, script::specs::Table::range_e, script::specs::Table::statement, script::specs::Table::read_s, script::specs::Table::write_s, script::specs::Table::range_s, word::specs::Records::same))]

ghost use Rattle.std.specs.Prelude.{◌≡◌, cond, ◌≤◌, Ok};
ghost use Rattle.word.specs.Refusals.{refuse};
ghost use Rattle.word.specs.Reader.{read_at};
ghost use Rattle.script.specs.Table.{expression, statement, program, array, function, lead_by};
ghost use Rattle.script.specs.declared.Env.{Env};
ghost use Rattle.reading.specs.Structure.{due_of, leads};

use script::Env;
use word::reader::Reader;
use word::reason::Reason;
use word::{Record, Refusal};

// The record that is due where the reader stands, with the reader past it. 3: the table ends early.
pub fn due(table: &[u32], at: Reader) -> Result<(Record, Reader), Refusal>
    ensures { result ≡ due_of table.now (read_at table.now at.at) }
{
    at.next(table)
        .ok_or(Refusal::new(Reason::TableEnds, table.len() / 4))
}

// 2: the record is of no kind that is due.
fn not_due(at: Reader) -> Result<(), Refusal>
    ensures { result ≡ refuse 2 at.at }
{
    Err(at.refusal(Reason::TableKind))
}

// 4 where a word is not as it must be, 5 where a field is out of its range. A test is told the place, since it makes the refusal.
fn fields(at: Reader, blank: bool, range: bool) -> Result<(), Refusal>
    ensures { result ≡ cond blank (cond range (Ok tt) (refuse 5 at.at)) (refuse 4 at.at) }
{
    at.require(blank, Reason::TableUnused)?;
    at.require(range, Reason::TableRange)
}

// One function for each class: it has one caller, which knows the class, and only expressions and statements are tested against an Env. Record and
// reader go by value: a refusal is made here.
pub fn program_leads(x: Record, at: Reader) -> Result<(), Refusal>
    ensures { (e : Env) → result ≡ leads (lead_by program e x at.at) }
{
    let kind = x.kind;
    match kind {
        1 => fields(at, x.r == 0, (1 <= x.p) & (x.p <= 16) & (x.q <= 8)),
        _ => not_due(at),
    }
}

pub fn array_leads(x: Record, at: Reader) -> Result<(), Refusal>
    ensures { (e : Env) → result ≡ leads (lead_by array e x at.at) }
{
    let kind = x.kind;
    match kind {
        2 => fields(at, (x.q == 0) & (x.r == 0), (1 <= x.p) & (x.p <= 4096)),
        _ => not_due(at),
    }
}

pub fn function_leads(x: Record, at: Reader) -> Result<(), Refusal>
    ensures { (e : Env) → result ≡ leads (lead_by function e x at.at) }
{
    let kind = x.kind;
    match kind {
        3 => fields(at, x.r == 0, (x.p <= 8) & (x.p <= x.q) & (x.q <= 32)),
        _ => not_due(at),
    }
}

// The words of an expression's record. The class was decided by its range; here are the single kinds.
fn expression_fields(x: Record, at: Reader, env: &Env) -> Result<(), Refusal>
    requires { (20 ≤ x.kind) × (x.kind ≤ 28) }
    ensures { result ≡ leads (lead_by expression env.now x at.at) }
{
    let blank = (x.q == 0) & (x.r == 0);
    let kind = x.kind;
    match kind {
        20 => fields(at, blank, true),
        21 => fields(at, (x.p == 0) & blank, true),
        22 => fields(at, (x.p == 0) & blank, true),
        23 => fields(at, blank, x.p < env.slots),
        24 => fields(at, blank, x.p < env.arrays),
        25 => fields(at, (x.p == 0) & blank, true),
        26 => fields(at, (x.p == 0) & blank, true),
        27 => fields(at, blank, (1 <= x.p) & (x.p <= 15)),
        _ => fields(at, blank, x.p < env.func),
    }
}

pub fn expression_leads(x: Record, at: Reader, env: &Env) -> Result<(), Refusal>
    ensures { result ≡ leads (lead_by expression env.now x at.at) }
{
    let kind = x.kind;
    match kind {
        20..=28 => expression_fields(x, at, env),
        _ => not_due(at),
    }
}

// The words of a statement's record.
fn statement_fields(x: Record, at: Reader, env: &Env) -> Result<(), Refusal>
    requires { (30 ≤ x.kind) × (x.kind ≤ 37) }
    ensures { result ≡ leads (lead_by statement env.now x at.at) }
{
    let blank = (x.q == 0) & (x.r == 0);
    let kind = x.kind;
    match kind {
        30 => fields(at, (x.p == 0) & blank, true),
        31 => fields(at, blank, (2 <= x.p) & (x.p <= 256)),
        32 => fields(at, blank, x.p < env.slots),
        33 => fields(at, blank, x.p < env.slots),
        34 => fields(at, blank, x.p < env.arrays),
        35 => fields(at, true, (x.p < env.slots) & (x.q <= x.r)),
        36 => fields(at, (x.p == 0) & blank, true),
        _ => fields(at, (x.p == 0) & blank, true),
    }
}

pub fn statement_leads(x: Record, at: Reader, env: &Env) -> Result<(), Refusal>
    ensures { result ≡ leads (lead_by statement env.now x at.at) }
{
    let kind = x.kind;
    match kind {
        30..=37 => statement_fields(x, at, env),
        _ => not_due(at),
    }
}
