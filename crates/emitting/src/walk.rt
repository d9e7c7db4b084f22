// A walk over a table: what it reads, and where it stands, the reader and the emitter.
ghost use Rattle.std.specs.Prelude.{◌≡◌};
ghost use Rattle.tape.specs.Named.{named};
ghost use Rattle.emitting.specs.Emitting.{puts};
ghost use Rattle.emitting.specs.Walking.{desk_of, on};

use crate::emitter::Emitter;
use tape::instruction::Instruction;
use word::reader::Reader;

// What a walk reads: the table, and how many parameters each function has, as far as it is known.
#[derive(Clone, Copy)]
pub struct Source<'a> {
    pub table: &'a [u32],
    pub params: &'a [u32],
}

#[derive(Clone, Copy, Debug, PartialEq, Eq)]
pub struct Walk {
    pub reader: Reader,
    pub emitter: Emitter,
}

impl Walk {
    // With the reader, or the emitter, moved on.
    pub fn reading(self, reader: Reader) -> Self
        ensures { (result.reader ≡ reader) × (result.emitter ≡ self.emitter) }
    {
        Walk { reader, ..self }
    }

    pub fn with(self, emitter: Emitter) -> Self
        ensures { (result.reader ≡ self.reader) × (result.emitter ≡ emitter) }
    {
        Walk { emitter, ..self }
    }

    // One record.
    pub fn put(self, out: &mut [u32], i: Instruction) -> Self
        ensures { desk_of out.new result ≡ on (puts (named i)) (desk_of out.old self) }
    {
        Walk {
            emitter: self.emitter.put(out, i),
            ..self
        }
    }
}
