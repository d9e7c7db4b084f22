// The emitter: a cursor that writes core records one after another and hands itself back. Where there is no room it writes nothing and goes on all the same.
ghost use Rattle.std.specs.Prelude.{◌≡◌, ltb};
ghost use Rattle.word.specs.Records.{records};
ghost use Rattle.tape.specs.Named.{named};
ghost use Rattle.emitting.specs.Emitting.{Sheet, words_if, sheet, place, puts};

use tape::held::more;
use tape::instruction::Instruction;
use word::Record;

// The record that is written next, held at one more than the limit of 12. No tape has as many. The output is lent beside it: a cursor goes by value, and
// holds no loan.
#[derive(Clone, Copy, Debug, PartialEq, Eq)]
pub struct Emitter {
    pub at: usize,
}

// What can be put on a tape: an instruction by its words, and any record as it stands.
pub trait Item: Copy {
    ghost puts: { Self → Sheet → Sheet };

    fn record(self) -> Record
        ensures { (s : Sheet) → place result s ≡ puts self s };
}

impl Item for Record {
    ghost puts = { λ x s. place x s };

    fn record(self) -> Record {
        self
    }
}

impl Item for Instruction {
    ghost puts = { λ i s. puts (named i) s };

    #[tactic(auto, unfolding(crate::specs::Emitting::puts))]
    fn record(self) -> Record {
        self.into()
    }
}

// The four words of record `at`, where there is room for them. One by one: the library's copy of a slice is a loop, which may be compiled with a test at
// each record whether the two overlap.
#[tactic(auto, using(std::proofs::lemmas::Bool::Decides::nat_tests), unfolding(crate::specs::Emitting::words_if))]
fn store(out: &mut [u32], at: usize, x: Record)
    ensures { out.new ≡ words_if (ltb at (records out.old)) out.old at x }
{
    if at < out.len() / 4 {
        let b = at * 4;
        out[b] = x.kind;
        out[b + 1] = x.p;
        out[b + 2] = x.q;
        out[b + 3] = x.r;
    }
}

impl Emitter {
    pub fn new() -> Self
        ensures { result.at ≡ 0 }
    {
        Emitter { at: 0 }
    }

    // A record as it stands.
    #[tactic(auto, unfolding(crate::specs::Emitting::place))]
    pub fn copy(self, out: &mut [u32], x: Record) -> Self
        ensures { sheet out.new result ≡ place x (sheet out.old self) }
    {
        store(out, self.at, x);
        Emitter {
            at: more(self.at, 1),
        }
    }

    // One record.
    pub fn put<I: Item>(self, out: &mut [u32], i: I) -> Self
        ensures { sheet out.new result ≡ I.puts i (sheet out.old self) }
    {
        self.copy(out, i.record())
    }
}
