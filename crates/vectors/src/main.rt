// Compiles and runs the cases of data/base.bin, whose answers were worked out elsewhere (data/FORMAT.md), and prints how many tables were compiled, how many
// tapes were run, how many plain meanings were compared, and how many cases differ from their answer in any number, word or byte. It takes no argument and
// reads that one file; where memory runs out, it ends with that error and prints no count.
#![tactic(auto)]

mod cases;
mod compiling;
mod decoding;
mod running;

ghost use Rattle.std.specs.Prelude.{◌≡◌, ◌≤◌, length, IfOk};

use cases::all_cases;
use decoding::Cases;
use std::fs::File;
use std::io;
use std::io::Read;

// No more of a file is read: it may have no end.
const LONGEST: usize = 1600000;

fn main(rt: HostRuntime) -> io::Result<()> {
    let mut cases = File::open(&rt, "base.bin")?;
    let mut file = vec![in rt.alloc(); 0u8; LONGEST]?;
    let n = read_all(&mut cases, &mut file)?;
    let Some(cases) = Cases::new(&file[..n]) else {
        return eprintln!(rt; "base.bin is no file of cases");
    };
    let counts = all_cases(rt.alloc(), cases)?;
    println!(rt; "{counts}")
}

// How many bytes were read, which are at most those that there is room for.
fn read_all(cases: &mut File, file: &mut [u8]) -> io::Result<usize>
    ensures count { IfOk result (λ n. n ≤ length file.new) }
    ensures room { length file.new ≡ length file.old }
{
    let mut n = 0;
    while n < file.len() {
        let more = cases.read(&mut file[n..])?;
        if more == 0 {
            return Ok(n);
        }
        n += more;
    }
    Ok(n)
}
