// Statements, counted by the figures of their translation. It is the compiler's walk again, in figures: a loop's steps are multiplied and no word is written, so that
// of one walk for both only the match on the kinds would be shared. That the IFs are 16 at most is one number's bound, which a type would say no more shortly.
ghost use Rattle.std.specs.Prelude.{◌≡◌, ℕ, suc, ◌+◌, ◌-◌, ◌≤◌};
ghost use Rattle.script.specs.Table.{read_s};
ghost use Rattle.costing.specs.Counting.{plus, deeper, opened, closed, expression, masked, putting, head, statement};
ghost use Rattle.costing.specs.declared.count.Count.{Count};

use crate::count::{Count, Known};
use tape::held::{more, short, with_loop};
use word::Record;

impl Count {
    // SET, PUT and RETURN behind their expressions: a mask or a context twice, and what is done with them.
    #[tactic(auto, unfolding(crate::specs::Counting::masked))]
    fn masked(self, ifs: u32) -> Count
        requires { ifs ≤ 16 }
        ensures { result ≡ masked ifs self }
    {
        self.plus(4 * ifs + 12, 4 * ifs + 10)
    }

    // Before a FOR's body, whose steps are counted by themselves.
    #[tactic(auto, unfolding(crate::specs::Counting::opened))]
    fn opened(self) -> Count
        ensures { result ≡ opened self }
    {
        Count {
            records: more(self.records, 2),
            steps: 0,
            ..self
        }
    }

    // After it, where so many steps were before: each of the loop's passes, "q, q+1, .. r−1", takes the body's steps and FOR's one.
    #[tactic(auto, using(tape::proofs::Counts::hold_loop), unfolding(crate::specs::Counting::closed))]
    fn closed(self, before: usize, q: u32, r: u32) -> Count
        ensures { result ≡ closed before (r - q) self }
    {
        let steps = with_loop(short(before), r.saturating_sub(q), short(self.steps));
        Count {
            steps: steps as usize,
            ..self
        }
    }
}

impl Known {
    // PUT: the index is written twice.
    #[tactic(auto, unfolding(crate::specs::Counting::putting))]
    fn put(&self, table: &[u32], from: Count, ifs: u32) -> Count
        requires { ifs ≤ 16 }
        ensures { result ≡ putting self.now.params self.now.steps table.now ifs from }
    {
        let index = self.expression(table, from);
        let value = self.expression(table, index);
        let again = self.expression(table, value.moved(from.at));
        again.moved(value.at).masked(ifs)
    }

    // A statement that holds no other: SKIP, DEF, SET, PUT or RETURN, whose record was read.
    #[tactic(auto, unfolding(script::specs::Table::read_s, crate::specs::Counting::head))]
    fn single(&self, table: &[u32], here: Count, ifs: u32, x: Record) -> Count
        requires { (ifs ≤ 16) × (x.kind ≡ 31 → ⊥) × (x.kind ≡ 35 → ⊥) × (x.kind ≡ 36 → ⊥) }
        ensures { (f : ℕ → Count → Count) → result ≡ head self.now.params self.now.steps table.now f ifs here (read_s x) }
    {
        let kind = x.kind;
        match kind {
            30 => here,
            32 => self.expression(table, here).plus(1, 1),
            33 => self.expression(table, here).masked(ifs),
            34 => self.put(table, here, ifs),
            _ => self.expression(table, here).masked(ifs),
        }
    }

    // IF's condition, its DEF and, between the branches, its `~`; they lie one IF deeper.
    fn condition(&self, table: &[u32], from: Count, ifs: u32) -> Count
        ensures { result ≡ deeper (suc ifs) (plus 4 4 (expression self.now.params self.now.steps table.now from)) }
    {
        self.expression(table, from)
            .plus(4, 4)
            .deeper(ifs as usize + 1)
    }

    // The statement where the count stands, with `ifs` IFs round it, which may hold others to the depth `left`, itself counted.
    #[tactic(auto, using(script::proofs::Times::times_more, script::proofs::Times::times_over, crate::proofs::Turns::statement_none, crate::proofs::Turns::statement_end, crate::proofs::Turns::statement_found), unfolding(script::specs::Table::read_s, crate::specs::Counting::head, crate::specs::Counting::branching))]
    pub(crate) fn statement(&self, table: &[u32], from: Count, ifs: u32, left: u32) -> Count
        requires { ifs + left ≤ 16 }
        ensures { result ≡ statement self.now.params self.now.steps table.now left ifs from }
    {
        if left == 0 {
            return from;
        }
        let Some((x, next)) = from.at.next(table) else {
            return from;
        };
        let here = from.moved(next);
        let kind = x.kind;
        match kind {
            31 => {
                let parts = x.p;
                let mut last = here;
                for i in 0..parts {
                    last = self.statement(table, last, ifs, left - 1);
                }
                last
            }
            35 => self
                .statement(table, here.opened(), ifs, left - 1)
                .closed(from.steps, x.q, x.r),
            36 => {
                let first = self.condition(table, here, ifs);
                let then = self.statement(table, first, ifs + 1, left - 1);
                self.statement(table, then, ifs + 1, left - 1)
            }
            _ => self.single(table, here, ifs, x),
        }
    }
}
