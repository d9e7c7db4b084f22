// What is counted, and an expression counted by its records.
ghost use Rattle.std.specs.Prelude.{◌≡◌};
ghost use Rattle.costing.specs.Counting.{moved, plus, deeper, weight, expression};

use scoping::passes::arity;
use tape::held::{more, sum};
use word::Record;
use word::reader::Reader;

// The record that is read next; the core records and the steps so far, held at one more than the limit; and the deepest IF nesting. All fields have one width, because
// what is written narrow and read wide again makes the processor wait, here at each statement.
#[derive(Clone, Copy, Debug, PartialEq, Eq)]
pub struct Count {
    pub at: Reader,
    pub records: usize,
    pub steps: usize,
    pub deepest: usize,
}

impl Count {
    // At another record.
    pub fn moved(self, at: Reader) -> Count
        ensures { result ≡ moved at.at self }
    {
        Count { at, ..self }
    }

    // So many core records and steps more.
    #[tactic(auto, unfolding(crate::specs::Counting::plus))]
    pub fn plus(self, records: u32, steps: u32) -> Count
        ensures { result ≡ plus records steps self }
    {
        Count {
            records: more(self.records, records),
            steps: more(self.steps, steps),
            ..self
        }
    }

    // At least so many IFs deep.
    #[tactic(auto, unfolding(crate::specs::Counting::deeper))]
    pub fn deeper(self, ifs: usize) -> Count
        ensures { result ≡ deeper ifs self }
    {
        Count {
            deepest: self.deepest.max(ifs),
            ..self
        }
    }
}

// What is known of the functions so far: how many parameters each takes, and its steps, held.
#[derive(Clone, Copy, Debug, PartialEq, Eq)]
pub struct Known {
    pub params: [u32; 16],
    pub steps: [u32; 16],
}

impl Known {
    // The steps that an expression's own record counts: a literal's none, CALL's those of its function too.
    #[tactic(auto, using(std::proofs::lemmas::Bool::Decides::nat_tests), unfolding(crate::specs::Counting::weight, scoping::specs::Passes::params_of))]
    fn weight(&self, x: Record) -> u32
        ensures { result ≡ weight self.now.steps x }
    {
        let kind = x.kind;
        match kind {
            0..=22 => 0,
            23..=27 => 1,
            _ => {
                let called = self.steps.get(x.p as usize).copied().unwrap_or(0);
                sum(1, called)
            }
        }
    }

    // The expression where the count stands: each record by itself, until no part is left. An expression has as many records on the tape as in the table.
    #[tactic(auto, using(crate::proofs::Turns::tally_over, crate::proofs::Turns::tally_end), unfolding(crate::specs::Counting::expression))]
    pub fn expression(&self, table: &[u32], from: Count) -> Count
        ensures { result ≡ expression self.now.params self.now.steps table.now from }
    {
        let mut here = from;
        let mut parts = 1u32;
        while 0 < parts {
            let Some((x, next)) = here.at.next(table) else {
                return here;
            };
            here = here.plus(1, self.weight(x)).moved(next);
            parts = sum(parts - 1, arity(&self.params, x));
        }
        here
    }
}
