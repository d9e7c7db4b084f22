// Sets of slots, one u64 for each, slot p at bit p; and what is visible of a slot: nothing, a DEF's, or what is fixed, a parameter or a loop's.
ghost use Rattle.std.specs.Prelude.{◌≡◌, ◌||◌, nat_lt, ◌<◌};
ghost use Rattle.word.specs.Slots.{hidden};
ghost use Rattle.checker.specs.Standing.{has, insert, rank, seen_of, shown_by, searched_of, least_of, most_of, scope_at};

use crate::standing::Bodies;

// What is visible of a slot, in the slot rule's order: from what a FOR may name to what only a VAR and a RET may.
#[derive(Clone, Copy, Debug, PartialEq, Eq, PartialOrd, Ord)]
pub(crate) enum Seen {
    Hidden,
    Defined,
    Fixed,
}

// A tape's slots are below 64, a table's below 32 (word::sets): one function over u64 and u32 would need a trait with two impls, as long as these
// lines.
#[tactic(auto, unfolding(crate::specs::Standing::has))]
fn has(set: u64, p: u32) -> bool
    ensures { result ≡ has «set» p }
{
    p < 64 && (set >> p) % 2 == 1
}

#[tactic(auto, using(crate::proofs::Sets::one_bit), unfolding(crate::specs::Standing::insert))]
pub(crate) fn insert(set: u64, p: u32) -> u64
    requires { p < 64 }
    ensures { result ≡ insert «set» p }
{
    set | (1u64 << p)
}

impl Bodies {
    // What the body of a loop shows of slot p: its DEFs, and its FOR's slot.
    #[tactic(auto, unfolding(crate::specs::Standing::seen_of, crate::specs::Standing::shown_by, word::specs::Slots::here))]
    pub(crate) fn shown(&self, d: usize, p: u32) -> Seen
        requires { d < 9 }
        ensures { seen_of result ≡ shown_by self.now d p }
    {
        if has(self.defs[d], p) {
            Seen::Defined
        } else if p == self.slots[d] {
            Seen::Fixed
        } else {
            Seen::Hidden
        }
    }

    // What is visible of slot p where the search has come to body d: what that body shows, or in the function's own its DEFs and its parameters.
    #[tactic(auto, using(crate::proofs::Leaving::body_shows), unfolding(crate::specs::Standing::seen_of, crate::specs::Standing::scope_at, word::specs::Slots::here, word::specs::Slots::begin, word::specs::Slots::parameter))]
    pub(crate) fn visible(&self, params: u32, d: usize, p: u32) -> Seen
        requires { d < 9 }
        ensures { (0 < d → shown_by self.now d p ≡ hidden → ⊥) → seen_of result ≡ scope_at params self.now d p }
    {
        if d != 0 {
            self.shown(d, p)
        } else if has(self.defs[0], p) {
            Seen::Defined
        } else if p < params {
            Seen::Fixed
        } else {
            Seen::Hidden
        }
    }
}

// How many loops are searched for the slot that a record names: none, where it names none.
#[tactic(auto, unfolding(crate::specs::Standing::searched_of))]
pub(crate) fn searched(kind: u32, deep: usize) -> usize
    ensures { result ≡ searched_of kind deep }
{
    match kind {
        11 | 16 | 17 | 19 | 21 => deep,
        _ => 0,
    }
}

// The slot rule: the least and the most that a record may find of its slot.
#[tactic(auto, unfolding(crate::specs::Standing::rank, crate::specs::Standing::seen_of, crate::specs::Standing::least_of))]
fn least(kind: u32) -> Seen
    ensures { rank (seen_of result) ≡ least_of kind }
{
    match kind {
        11 | 17 | 21 => Seen::Defined,
        _ => Seen::Hidden,
    }
}

#[tactic(auto, unfolding(crate::specs::Standing::rank, crate::specs::Standing::seen_of, crate::specs::Standing::most_of))]
pub(crate) fn most(kind: u32) -> Seen
    ensures { rank (seen_of result) ≡ most_of kind }
{
    match kind {
        16 | 17 => Seen::Defined,
        19 => Seen::Hidden,
        _ => Seen::Fixed,
    }
}

// 29: what is seen of the record's slot is outside its range.
#[tactic(auto, unfolding(crate::specs::Standing::rank, crate::specs::Standing::seen_of))]
pub(crate) fn outside(kind: u32, most: Seen, seen: Seen) -> bool
    ensures { result ≡ nat_lt (rank (seen_of seen)) (least_of kind) || nat_lt (rank (seen_of most)) (rank (seen_of seen)) }
{
    (seen < least(kind)) | (most < seen)
}
