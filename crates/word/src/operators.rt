// The operators on words, each by the definition of its name, and one entry by operation code. They assume nothing of their operands.
#![tactic(auto, using(std::proofs::lemmas::Bool::Decides::nat_tests), unfolding(crate::specs::Value::op, crate::specs::Value::flip, crate::specs::Value::truth, crate::specs::Value::left, crate::specs::Value::left_by, crate::specs::Value::right, crate::specs::Value::right_by))]

ghost use Rattle.std.specs.Prelude.{◌≡◌};
ghost use Rattle.word.specs.Value.{Op, add, sub, mul, shl, shr, and, or, eq, ne, gt, lt, ge, le, land, lor, op, flip, negate, mask};
ghost use Rattle.word.specs.Code.{op_of};

pub const TRUE: u32 = 4294967295;

pub const FALSE: u32 = 0;

pub fn plus(a: u32, b: u32) -> u32
    ensures { result ≡ op add a b }
{
    a.wrapping_add(b)
}

pub fn minus(a: u32, b: u32) -> u32
    ensures { result ≡ op sub a b }
{
    a.wrapping_sub(b)
}

// The product is worked out in 64 bits, where it fits, and its low half kept: 01 asks for a helper that is proved modulo 2^32.
pub fn times(a: u32, b: u32) -> u32
    ensures { result ≡ op mul a b }
{
    (a as u64 * b as u64 % 4294967296) as u32
}

pub fn shift_left(a: u32, n: u32) -> u32
    ensures { result ≡ op shl a n }
{
    a.unbounded_shl(n)
}

pub fn shift_right(a: u32, n: u32) -> u32
    ensures { result ≡ op shr a n }
{
    a.unbounded_shr(n)
}

pub fn both(a: u32, b: u32) -> u32
    ensures { result ≡ op and a b }
{
    a & b
}

pub fn either(a: u32, b: u32) -> u32
    ensures { result ≡ op or a b }
{
    a | b
}

// `~`
pub fn complement(a: u32) -> u32
    ensures { result ≡ flip a }
{
    !a
}

// A test as a full mask.
pub fn masked(test: bool) -> u32
    ensures { result ≡ mask test }
{
    if test { TRUE } else { FALSE }
}

pub fn equal(a: u32, b: u32) -> u32
    ensures { result ≡ op eq a b }
{
    masked(a == b)
}

pub fn unequal(a: u32, b: u32) -> u32
    ensures { result ≡ op ne a b }
{
    masked(a != b)
}

pub fn above(a: u32, b: u32) -> u32
    ensures { result ≡ op gt a b }
{
    masked(b < a)
}

pub fn below(a: u32, b: u32) -> u32
    ensures { result ≡ op lt a b }
{
    masked(a < b)
}

pub fn at_least(a: u32, b: u32) -> u32
    ensures { result ≡ op ge a b }
{
    masked(b <= a)
}

pub fn at_most(a: u32, b: u32) -> u32
    ensures { result ≡ op le a b }
{
    masked(a <= b)
}

// `&&` and `||` of the script, read plainly: both sides are tests.
pub fn logical_and(a: u32, b: u32) -> u32
    ensures { result ≡ op land a b }
{
    masked((a == TRUE) & (b == TRUE))
}

pub fn logical_or(a: u32, b: u32) -> u32
    ensures { result ≡ op lor a b }
{
    masked((a == TRUE) | (b == TRUE))
}

// The operator with this code. A code is a word of a record and goes straight to its operator: an enum between them would be this table twice.
#[tactic(auto, unfolding(crate::specs::Code::op_of))]
pub fn apply(code: u32, a: u32, b: u32) -> u32
    ensures { result ≡ op (op_of code) a b }
{
    match code {
        1 => plus(a, b),
        2 => minus(a, b),
        3 => times(a, b),
        4 => shift_left(a, b),
        5 => shift_right(a, b),
        6 => both(a, b),
        7 => either(a, b),
        8 => equal(a, b),
        9 => unequal(a, b),
        10 => above(a, b),
        11 => below(a, b),
        12 => at_least(a, b),
        13 => at_most(a, b),
        14 => logical_and(a, b),
        _ => logical_or(a, b),
    }
}
