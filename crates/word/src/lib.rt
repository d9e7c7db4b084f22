// Words: values with their operators, the four-word records of tables and tapes, and how a table or a tape is refused.
#![tactic(auto)]

ghost use Rattle.std.specs.Prelude.{◌≡◌};
ghost use Rattle.word.specs.Reasons.{number_of};
ghost use Rattle.word.specs.Records.{sized};
ghost use Rattle.word.specs.Refusals.{refusal};

use reason::Reason;

pub mod operators;
pub mod reader;
pub mod reason;
pub mod sets;

// Four words to a record. A kind stays a number: it is tested by the range of the class that is due before it is known that there is such a kind, and p, q
// and r mean what the kind says.
#[derive(Clone, Copy, Debug, PartialEq, Eq)]
pub struct Record {
    pub kind: u32,
    pub p: u32,
    pub q: u32,
    pub r: u32,
}

// Why a table, a tape or a run is refused: the number of the first condition that fails, and the place of what fails it. It keeps the number and not the
// reason: the definitions say refusals by number, and a file of cases may give a number that is no reason's.
#[derive(Clone, Copy, Debug, PartialEq, Eq)]
pub struct Refusal {
    pub number: u32,
    pub place: usize,
}

impl Refusal {
    pub fn new(reason: Reason, place: usize) -> Self
        ensures { result ≡ refusal (number_of reason) place }
    {
        Refusal {
            number: u32::from(reason),
            place,
        }
    }
}

// Whether so many words are whole records, one at least and so many at most.
#[tactic(auto, unfolding(crate::specs::Records::sized))]
pub fn sized(most: usize, words: usize) -> bool
    ensures { result ≡ sized most words }
{
    (words != 0) & ((words % 4 == 0) & (words / 4 <= most))
}
