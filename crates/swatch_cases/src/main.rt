// The swatch cases, through the compiler and the machine: each is printed with its answer.
#![tactic(auto)]

mod arrays;
mod branches;
mod loops;
mod records;
mod showing;
mod words;

use std::io;

fn main(rt: HostRuntime) -> io::Result<()> {
    words::show_words(&rt)?;
    branches::show_branches(&rt)?;
    loops::show_loops(&rt)?;
    arrays::show_arrays(&rt)
}
