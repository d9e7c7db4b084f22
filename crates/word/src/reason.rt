// Why a table, a tape or a run is refused: the paper's conditions by name, each with its number there.
ghost use Rattle.std.specs.Prelude.{◌≡◌};
ghost use Rattle.word.specs.Reasons.{number_of};

// 1 to 13 are a script's, 21 to 32 a tape's and a run's. Six names have one for either, 1 to 6 and 21 to 26, since a table and a tape are read alike.
#[derive(Clone, Copy, Debug, PartialEq, Eq)]
pub enum Reason {
    // no words, no whole records, or too many
    TableWords = 1,
    // a kind that is not due
    TableKind = 2,
    TableEnds = 3,
    // an unused word that is not 0
    TableUnused = 4,
    TableRange = 5,
    // a record after the last function
    TableExtra = 6,
    TooDeep = 7,
    // a slot that is not visible, or is declared again
    Scope = 8,
    // SET of a parameter or a loop's slot
    Fixed = 9,
    Mistyped = 10,
    // PUT outside the exposed function
    Store = 11,
    Cost = 12,
    Output = 13,
    TapeWords = 21,
    TapeKind = 22,
    TapeEnds = 23,
    TapeUnused = 24,
    TapeRange = 25,
    TapeExtra = 26,
    Loops = 27,
    Operands = 28,
    // the slot rule
    Slot = 29,
    Steps = 30,
    Arguments = 31,
    Memory = 32,
}

impl From<Reason> for u32 {
    ghost from_gives = { λ reason n. n ≡ number_of reason };

    fn from(reason: Reason) -> u32 {
        reason as u32
    }
}
