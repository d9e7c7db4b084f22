// Counts of steps, held at one more than the limit.
ghost use Rattle.std.specs.Prelude.{◌≡◌, suc, ◌+◌, ◌*◌};
ghost use Rattle.tape.specs.Held.{hold};

// A function's steps, its calls included, may be this many (12 and 30).
pub const LIMIT: u32 = 1000000000;

#[tactic(auto, using(crate::proofs::Counts::hold_least))]
fn hold(count: u64) -> u32
    ensures { result ≡ hold count }
{
    count.min(LIMIT as u64 + 1) as u32
}

// The steps of two parts.
pub fn sum(a: u32, b: u32) -> u32
    ensures { result ≡ hold (a + b) }
{
    hold(a as u64 + b as u64)
}

// The steps before a loop, and the loop's: each pass counts its body's and FOR's one.
pub fn with_loop(before: u32, passes: u32, inner: u32) -> u32
    ensures { result ≡ hold (before + passes * suc inner) }
{
    hold(before as u64 + passes as u64 * (inner as u64 + 1))
}

// A count and so many more, held.
#[tactic(auto, using(crate::proofs::Counts::hold_fitting))]
pub fn more(count: usize, n: u32) -> usize
    ensures { result ≡ hold (count + n) }
{
    short(count.saturating_add(n as usize)) as usize
}

// A count as a word, held.
pub fn short(count: usize) -> u32
    ensures { result ≡ hold count }
{
    hold(count as u64)
}
