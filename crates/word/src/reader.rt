// The reader: a cursor that moves over a list of words by whole records and hands itself back.
ghost use Rattle.std.specs.Prelude.{◌≡◌};
ghost use Rattle.word.specs.Reader.{read_at};
ghost use Rattle.word.specs.Reasons.{number_of};
ghost use Rattle.word.specs.Refusals.{refusal, required};

use crate::reason::Reason;
use crate::{Record, Refusal};

// The record that it stands at. The words are lent beside it: it goes by value, and holds no loan.
#[derive(Clone, Copy, Debug, PartialEq, Eq)]
pub struct Reader {
    pub at: usize,
}

impl Reader {
    pub fn new() -> Self
        ensures { result.at ≡ 0 }
    {
        Reader { at: 0 }
    }

    // The record, with the cursor past it; or none, at the end.
    #[tactic(auto, using(std::proofs::lemmas::Bool::Decides::nat_tests), unfolding(crate::specs::Reader::read_at, crate::specs::Reader::found_if))]
    pub fn next(self, words: &[u32]) -> Option<(Record, Reader)>
        ensures { result ≡ read_at words.now self.at }
    {
        let at = self.at;
        if at < words.len() / 4 {
            let b = at * 4;
            let record = Record {
                kind: words[b],
                p: words[b + 1],
                q: words[b + 2],
                r: words[b + 3],
            };
            Some((record, Reader { at: at + 1 }))
        } else {
            None
        }
    }

    // For this reason, at the record that it stands at.
    pub fn refusal(self, reason: Reason) -> Refusal
        ensures { result ≡ refusal (number_of reason) self.at }
    {
        Refusal::new(reason, self.at)
    }

    // The refusal, where what is required is not met.
    pub fn require(self, met: bool, reason: Reason) -> Result<(), Refusal>
        ensures { result ≡ required met (number_of reason) self.at }
    {
        if met {
            Ok(())
        } else {
            Err(self.refusal(reason))
        }
    }
}
