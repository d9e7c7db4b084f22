// An array of four bytes: read at its last index and past it, and a store that keeps the value modulo 256.
use crate::records::{ARRAY, FUNC, GET, NUM, PROGRAM, PUT, RETURN, SEQ};
use crate::showing::Case;
use std::io;

pub fn show_arrays(rt: &impl Print) -> io::Result<()> {
    show_read(rt, "index 3 of an array of 4", 3)?;
    show_read(rt, "index 4 of an array of 4", 4)?;
    show_store(rt)
}

fn show_read(rt: &impl Print, name: &str, index: u32) -> io::Result<()> {
    let table = [
        PROGRAM, 1, 1, 0, ARRAY, 4, 0, 0, FUNC, 0, 0, 0, RETURN, 0, 0, 0, GET, 0, 0, 0, NUM, index,
        0, 0,
    ];
    Case::new(name, &table)
        .memory(&mut [11, 22, 33, 44])
        .show(rt)
}

// a[0] := 300; return a[0].
fn show_store(rt: &impl Print) -> io::Result<()> {
    let table = [
        PROGRAM, 1, 1, 0, ARRAY, 4, 0, 0, FUNC, 0, 0, 0, SEQ, 2, 0, 0, PUT, 0, 0, 0, NUM, 0, 0, 0,
        NUM, 300, 0, 0, RETURN, 0, 0, 0, GET, 0, 0, 0, NUM, 0, 0, 0,
    ];
    Case::new("300 stored at 0 of an array of 4", &table)
        .memory(&mut [11, 22, 33, 44])
        .show(rt)
}
