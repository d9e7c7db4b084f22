// Sets of slots, one u32 for each: slot p is a member if bit p is set. A slot is below 32; no other number is ever a member. A set is the bare word that the
// definitions speak of: a type round it would be opened again in each of their laws. A tape's sets are of 64 slots (checker/src/slots).
ghost use Rattle.std.specs.Prelude.{◌≡◌, ◌<◌};
ghost use Rattle.word.specs.Sets.{has, toggle, put, below};

#[tactic(auto, using(std::proofs::lemmas::Bool::Decides::nat_tests), unfolding(crate::specs::Sets::has))]
pub fn has(members: u32, p: u32) -> bool
    ensures { result ≡ has members p }
{
    p < 32 && (members >> p) % 2 == 1
}

#[tactic(auto, using(crate::proofs::Members::shifted), unfolding(crate::specs::Sets::toggle))]
fn toggle(members: u32, p: u32) -> u32
    requires { p < 32 }
    ensures { result ≡ toggle members p }
{
    members ^ (1u32 << p)
}

// The set in which p is a member or not, as told, and every other slot as before.
#[tactic(auto, using(std::proofs::lemmas::Bool::Decides::nat_tests), unfolding(crate::specs::Sets::put, crate::specs::Sets::turned))]
pub fn put(members: u32, p: u32, member: bool) -> u32
    ensures { result ≡ put members p member }
{
    if p < 32 && has(members, p) != member {
        toggle(members, p)
    } else {
        members
    }
}

// The slots below n.
#[tactic(auto, unfolding(crate::specs::Sets::below))]
pub fn below(n: u32) -> u32
    ensures { result ≡ below n }
{
    let mut members = 0u32;
    for p in 0..n {
        members = put(members, p, true);
    }
    members
}
