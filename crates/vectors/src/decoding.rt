// Reading the file of cases: numbers, lists of words, runs of bytes (data/FORMAT.md). Any bytes may stand in it; where it ends early, what is missing is 0.
ghost use Rattle.std.specs.Prelude.{◌≡◌, ◌≤◌, length, IfOk, vec_len};

use std::alloc::{AllocError, Global};
use word::operators::{plus, times};

// What a list of the file holds: numbers, or bytes.
pub trait Item: Sized {
    fn read(cases: &mut Cases) -> Self;
}

impl Item for u32 {
    fn read(cases: &mut Cases) -> u32 {
        cases.number()
    }
}

impl Item for u8 {
    fn read(cases: &mut Cases) -> u8 {
        cases.byte()
    }
}

// What is left of the file.
#[derive(Clone, Copy)]
pub struct Cases<'a> {
    rest: &'a [u8],
}

impl<'a> Cases<'a> {
    // None where the file doesn't begin as one of cases does.
    pub fn new(file: &'a [u8]) -> Option<Self> {
        let rest = file.strip_prefix(b"CVEC")?;
        Some(Cases { rest })
    }

    // Seven bits a byte, lowest first, the top bit set on all but the last.
    pub fn number(&mut self) -> u32 {
        let mut value = 0;
        let mut weight = 1;
        while let Some((b, rest)) = self.rest.split_first() {
            self.rest = rest;
            value = plus(value, times(u32::from(*b % 128), weight));
            weight = times(weight, 128);
            if *b < 128 {
                break;
            }
        }
        value
    }

    pub fn byte(&mut self) -> u8 {
        let Some((b, rest)) = self.rest.split_first() else {
            return 0;
        };
        self.rest = rest;
        *b
    }

    // A count and so many items, of which those within the room are read.
    pub fn list<T: Item + Drop>(&mut self, alloc: Global, room: usize) -> Result<Vec<T>, AllocError>
        ensures { IfOk result (λ list. vec_len list ≤ room) }
    {
        let n = (self.number() as usize).min(room);
        (0..n).map(|_| T::read(self)).collect(alloc)
    }

    // A count and so many bytes, each after its position: these bytes of the memory are changed.
    pub fn changes(&mut self, memory: &mut [u8])
        ensures { length memory.new ≡ length memory.old }
    {
        for _ in 0..self.number() {
            let place = self.number() as usize;
            let value = self.byte();
            if let Some(b) = memory.get_mut(place) {
                *b = value;
            }
        }
    }

    // A count and so many numbers, beside the words of a list: how many there are, and whether the list begins with them.
    pub fn compare(&mut self, list: &[u32]) -> (usize, bool) {
        let n = self.number() as usize;
        let mut same = true;
        for i in 0..n {
            let x = self.number();
            same = same && list.get(i) == Some(&x);
        }
        (n, same)
    }
}
