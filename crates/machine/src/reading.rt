// What is read off a tape that was checked: a record, and the record after a loop.
ghost use Rattle.std.specs.Prelude.{◌≡◌, ◌<◌};
ghost use Rattle.word.specs.Records.{records, record_at};
ghost use Rattle.machine.specs.Flat.{past_at};

use word::Record;

// Record i. That there is such a record is the caller's to know; word's reader, which asks nothing of its caller, has to answer an Option.
pub(crate) fn record(tape: &[u32], i: usize) -> Record
    requires { i < records tape.now }
    ensures { result ≡ record_at tape.now i }
{
    let b = i * 4;
    Record {
        kind: tape[b],
        p: tape[b + 1],
        q: tape[b + 2],
        r: tape[b + 3],
    }
}

// The record after the END of the loop whose FOR is record i: the records are passed one by one, and loops in it are counted. A chain would carry the
// count through its closures.
#[tactic(auto, using(crate::proofs::Passing::past_straight, crate::proofs::Passing::past_for, crate::proofs::Passing::past_inner, crate::proofs::Passing::past_end, crate::proofs::Passing::past_is, crate::proofs::Passing::past_none))]
pub(crate) fn past(tape: &[u32], i: usize) -> usize
    requires { i < records tape.now }
    ensures { result ≡ past_at tape.now i }
{
    let n = tape.len() / 4;
    let mut inside = 0usize;
    for at in i + 1..n {
        match tape[at * 4] {
            19 => inside += 1,
            20 if inside == 0 => return at + 1,
            20 => inside -= 1,
            _ => {}
        }
    }
    n
}
