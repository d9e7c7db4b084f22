// The walk over the statements of a table that the stages of scope and of types share: a recursive descent, the depth that is left falling at each
// nested statement. What a stage does at a statement it says itself. Assumes nothing of the table.
ghost use Rattle.std.specs.Prelude.{◌≡◌, ℕ, ◌+◌, List};
ghost use Rattle.script.specs.Stage.{Walked};
ghost use Rattle.word.specs.declared.Record.{Record};
ghost use Rattle.scoping.specs.Passes.{At, turn, walk, answered};

use script::shape::statements_in;
use word::reader::Reader;
use word::{Record, Refusal};

pub trait Stage {
    // What is carried from statement to statement.
    type State: Copy;

    // Of a table: a statement's record and its expressions; and after a statement within one of a kind, by what was carried before the one and after the
    // other, what is carried on.
    ghost enters: { Self → List ℕ → Self.State → ℕ → ℕ → Record → Walked (At Self.State) };

    ghost closes: { ℕ → Self.State → Self.State → Self.State };

    // A statement's record, which the cursor stands at, and its expressions, which begin at the next one, as it was read: the cursor past them.
    fn enter(
        &self,
        table: &[u32],
        at: Reader,
        x: Record,
        next: Reader,
        state: Self::State,
    ) -> Result<(Reader, Self::State), Refusal>
        ensures { result ≡ answered (enters self.now table.now state at.at next.at x) };

    fn leave(&self, kind: u32, outside: Self::State, inside: Self::State) -> Self::State
        ensures { result ≡ closes kind outside inside };
}

// The statement at the cursor, which may hold others to the depth that is left, itself counted.
#[tactic(auto, using(crate::proofs::Walking::walk_deep, crate::proofs::Walking::walk_end, crate::proofs::Walking::walk_parts, crate::proofs::Walking::turns_more, crate::proofs::Walking::turns_stop, crate::proofs::Walking::turns_all))]
pub fn statement<S: Stage>(
    stage: &S,
    table: &[u32],
    start: Reader,
    left: u32,
    state: S::State,
) -> Result<(Reader, S::State), Refusal>
    ensures { result ≡ answered (walk (turn (S.enters stage.now table.now) S.closes) table.now left start.at state) }
{
    if left == 0 {
        return Ok((start, state));
    }
    let Some((x, next)) = start.next(table) else {
        return Ok((start, state));
    };
    let (mut at, mut inside) = stage.enter(table, start, x, next, state)?;
    let parts = statements_in(x);
    for part in 0..parts {
        let (past, after) = statement(stage, table, at, left - 1, inside)?;
        at = past;
        inside = stage.leave(x.kind, state, after);
    }
    Ok((at, inside))
}
