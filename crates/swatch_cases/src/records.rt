// The kinds of a script table's records and the operators' codes, by name, so that a table can be read aloud.
pub const PROGRAM: u32 = 1;

pub const ARRAY: u32 = 2;

pub const FUNC: u32 = 3;

pub const NUM: u32 = 20;

pub const TRUE: u32 = 21;

pub const FALSE: u32 = 22;

pub const VAR: u32 = 23;

pub const GET: u32 = 24;

pub const BIN: u32 = 27;

pub const SKIP: u32 = 30;

pub const SEQ: u32 = 31;

pub const DEF: u32 = 32;

pub const SET: u32 = 33;

pub const PUT: u32 = 34;

pub const FOR: u32 = 35;

pub const IF: u32 = 36;

pub const RETURN: u32 = 37;

pub const ADD: u32 = 1;

pub const SUB: u32 = 2;

pub const MUL: u32 = 3;

pub const SHL: u32 = 4;

pub const EQ: u32 = 8;

pub const LT: u32 = 11;
