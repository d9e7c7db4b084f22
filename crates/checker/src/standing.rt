// Where the scan of a tape stands: its numbers, which go by value, and its rows, which are lent (specs/Standing says what they stand for).

// What is due: PROGRAM, an ARRAY, a CFUNC, a record of a function's body, or nothing more.
#[derive(Clone, Copy, Debug, Default, PartialEq, Eq)]
pub(crate) enum Due {
    #[default]
    Program,
    Array,
    Function,
    Body,
    Nothing,
}

// The numbers of the scan: what is due; the functions and arrays of PROGRAM; how many functions are known, their RETs passed; of the present
// function its parameters, slots and CFUNC; and of its innermost open body the operands that wait, its steps so far, and the loops round it.
// The scan begins at the default. That `known` and `deep` are bounded is asked where it is needed: a ghost field that said it would forbid `..self`,
// of which the turns are made, and the derived default.
#[derive(Clone, Copy, Default)]
pub(crate) struct Standing {
    pub(crate) due: Due,
    pub(crate) functions: u32,
    pub(crate) arrays: u32,
    pub(crate) known: usize,
    pub(crate) params: u32,
    pub(crate) slots: u32,
    pub(crate) place: usize,
    pub(crate) operands: u32,
    pub(crate) steps: u32,
    pub(crate) deep: usize,
}

// Of the functions whose RET was passed: parameters, steps, the records of their CFUNCs.
#[derive(Default, Drop)]
pub(crate) struct Functions {
    pub(crate) params: [u32; 16],
    pub(crate) steps: [u32; 16],
    pub(crate) places: [usize; 16],
}

// Of the open bodies, the function's own first: the slot of its FOR, its passes, the steps before the FOR inside it, and the set of its DEFs.
#[derive(Default, Drop)]
pub(crate) struct Bodies {
    pub(crate) slots: [u32; 9],
    pub(crate) passes: [u32; 9],
    pub(crate) counts: [u32; 9],
    pub(crate) defs: [u64; 9],
}
