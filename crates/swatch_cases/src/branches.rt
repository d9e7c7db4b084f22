// IFs: the oatmeal script, whose condition a branch changes; a condition that is a number; and how deep IFs may lie.
ghost use Rattle.std.specs.Prelude.{◌≡◌, ◌≤◌, length};

use crate::records::{
    ADD, BIN, DEF, FALSE, FUNC, IF, LT, MUL, NUM, PROGRAM, RETURN, SEQ, SET, SKIP, TRUE, VAR,
};
use crate::showing::Case;
use std::io;

pub fn show_branches(rt: &impl Print) -> io::Result<()> {
    show_oatmeal(rt, "oatmeal of 10", 10)?;
    show_oatmeal(rt, "oatmeal of 200", 200)?;
    let number = [
        PROGRAM, 1, 0, 0, FUNC, 0, 0, 0, IF, 0, 0, 0, NUM, 1, 0, 0, SKIP, 0, 0, 0, SKIP, 0, 0, 0,
    ];
    Case::new("condition NUM 1", &number).show(rt)?;
    show_nested(rt, "8 nested IFs", 8)?;
    show_nested(rt, "9 nested IFs", 9)
}

// f := p < 128; x := p; if f then (f := FALSE; x := x * 2) else x := x + 100; return x. Slots: p 0, f 1, x 2.
fn show_oatmeal(rt: &impl Print, name: &str, p: u32) -> io::Result<()> {
    let table = [
        PROGRAM, 1, 0, 0, FUNC, 1, 3, 0, SEQ, 4, 0, 0, DEF, 1, 0, 0, BIN, LT, 0, 0, VAR, 0, 0, 0,
        NUM, 128, 0, 0, DEF, 2, 0, 0, VAR, 0, 0, 0, IF, 0, 0, 0, VAR, 1, 0, 0, SEQ, 2, 0, 0, SET,
        1, 0, 0, FALSE, 0, 0, 0, SET, 2, 0, 0, BIN, MUL, 0, 0, VAR, 2, 0, 0, NUM, 2, 0, 0, SET, 2,
        0, 0, BIN, ADD, 0, 0, VAR, 2, 0, 0, NUM, 100, 0, 0, RETURN, 0, 0, 0, VAR, 2, 0, 0,
    ];
    Case::new(name, &table).arguments(&[p]).show(rt)
}

// So many IFs of TRUE, one within another, each in the first branch of the one round it. The table has a fixed size, so that this asks for no memory.
fn show_nested(rt: &impl Print, name: &str, n: u32) -> io::Result<()> {
    let mut table = [0u32; 128];
    let words = nested(&mut table, n);
    Case::new(name, &table[..words]).show(rt)
}

fn nested(table: &mut [u32], n: u32) -> usize
    ensures { result ≤ length table.new }
{
    let mut at = put(table, 0, PROGRAM, 1);
    at = put(table, at, FUNC, 0);
    for _ in 0..n {
        at = put(table, at, IF, 0);
        at = put(table, at, TRUE, 0);
    }
    for _ in 0..=n {
        at = put(table, at, SKIP, 0);
    }
    at
}

// One record, where there is room for it: the place after it.
fn put(table: &mut [u32], at: usize, kind: u32, p: u32) -> usize
    requires { at ≤ length table.old }
    ensures { (result ≤ length table.new) × (length table.new ≡ length table.old) }
{
    if at + 4 <= table.len() {
        table[at] = kind;
        table[at + 1] = p;
        return at + 4;
    }
    at
}
