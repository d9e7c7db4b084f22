// Operators by their codes: what types they have and require. A type is said as whether it is a boolean (types, `Typed`).
#![tactic(auto, using(std::proofs::lemmas::Bool::Decides::nat_tests), unfolding(crate::specs::Typed::code_type, crate::specs::Typed::code_fits))]

ghost use Rattle.std.specs.Prelude.{◌≡◌};
ghost use Rattle.stages.specs.Typed.{code_type, code_fits};

// Whether an operator's result is a boolean: codes 6 and 7 have their left side's type.
pub fn code_type(p: u32, lead: bool) -> bool
    ensures { result ≡ code_type p lead }
{
    match p {
        0..=5 => false,
        6 | 7 => lead,
        _ => true,
    }
}

// Whether its sides are what it requires: numbers, equal types, numbers, booleans.
pub fn code_fits(p: u32, numbers: bool, booleans: bool) -> bool
    ensures { result ≡ code_fits p numbers booleans }
{
    match p {
        0..=5 | 10..=13 => numbers,
        6..=9 => numbers | booleans,
        _ => booleans,
    }
}
