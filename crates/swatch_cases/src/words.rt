// Bodies of one statement, and arithmetic on words.
use crate::records::{ADD, BIN, FUNC, MUL, NUM, PROGRAM, RETURN, SHL, SKIP, SUB};
use crate::showing::Case;
use std::io;

pub fn show_words(rt: &impl Print) -> io::Result<()> {
    let seven = [
        PROGRAM, 1, 0, 0, FUNC, 0, 0, 0, RETURN, 0, 0, 0, NUM, 7, 0, 0,
    ];
    Case::new("RETURN 7", &seven).show(rt)?;
    Case::new("RETURN 7, limit 12", &seven).limit(12).show(rt)?;
    Case::new("RETURN 7, limit 13", &seven).limit(13).show(rt)?;
    let nothing = [PROGRAM, 1, 0, 0, FUNC, 0, 0, 0, SKIP, 0, 0, 0];
    Case::new("SKIP", &nothing).show(rt)?;
    show_operation(rt, "0 - 1", SUB, 0, 1)?;
    show_operation(rt, "65536 * 65536", MUL, 65536, 65536)?;
    show_operation(rt, "1 << 31", SHL, 1, 31)?;
    show_operation(rt, "1 << 32", SHL, 1, 32)?;
    show_operation(rt, "4294967295 + 1", ADD, 4294967295, 1)
}

// RETURN a operator b.
fn show_operation(rt: &impl Print, name: &str, code: u32, a: u32, b: u32) -> io::Result<()> {
    let table = [
        PROGRAM, 1, 0, 0, FUNC, 0, 0, 0, RETURN, 0, 0, 0, BIN, code, 0, 0, NUM, a, 0, 0, NUM, b, 0,
        0,
    ];
    Case::new(name, &table).show(rt)
}
