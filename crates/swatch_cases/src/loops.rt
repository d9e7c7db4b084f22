// FORs: a sum, a loop of no pass, one that runs backwards, and a RETURN out of a loop.
use crate::records::{ADD, BIN, DEF, EQ, FOR, FUNC, IF, NUM, PROGRAM, RETURN, SEQ, SET, SKIP, VAR};
use crate::showing::Case;
use std::io;

pub fn show_loops(rt: &impl Print) -> io::Result<()> {
    show_sum(rt, "sum from 0 to 3", 0, 3)?;
    show_sum(rt, "sum from 3 to 3", 3, 3)?;
    show_sum(rt, "sum from 4 to 3", 4, 3)?;
    show_return_in_a_loop(rt)
}

// s := 0; for i: s := s + i; return s. Slots: s 0, i 1.
fn show_sum(rt: &impl Print, name: &str, from: u32, to: u32) -> io::Result<()> {
    let table = [
        PROGRAM, 1, 0, 0, FUNC, 0, 2, 0, SEQ, 3, 0, 0, DEF, 0, 0, 0, NUM, 0, 0, 0, FOR, 1, from,
        to, SET, 0, 0, 0, BIN, ADD, 0, 0, VAR, 0, 0, 0, VAR, 1, 0, 0, RETURN, 0, 0, 0, VAR, 0, 0,
        0,
    ];
    Case::new(name, &table).show(rt)
}

// for i from 0 to 10: if i == 4 return i else skip; return 99. Slot: i 0.
fn show_return_in_a_loop(rt: &impl Print) -> io::Result<()> {
    let table = [
        PROGRAM, 1, 0, 0, FUNC, 0, 1, 0, SEQ, 2, 0, 0, FOR, 0, 0, 10, IF, 0, 0, 0, BIN, EQ, 0, 0,
        VAR, 0, 0, 0, NUM, 4, 0, 0, RETURN, 0, 0, 0, VAR, 0, 0, 0, SKIP, 0, 0, 0, RETURN, 0, 0, 0,
        NUM, 99, 0, 0,
    ];
    Case::new("return 4 out of a loop", &table).show(rt)
}
