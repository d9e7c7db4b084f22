// The scan after one record that has no fault: each method does what `next` says of its records, with the counts held.
ghost use Rattle.std.specs.Prelude.{◌≡◌, ℕ, ◌≤◌, ◌<◌};
ghost use Rattle.tape.specs.Instruction.{def, for, end, ret};
ghost use Rattle.tape.specs.Scan.{headed, arrayed, enters, leaves, states, in_body, next};
ghost use Rattle.tape.specs.Held.{held};
ghost use Rattle.checker.specs.Standing.{scan_of};
ghost use Rattle.checker.specs.declared.standing.Functions.{Functions};
ghost use Rattle.checker.specs.declared.standing.Bodies.{Bodies};

use crate::slots::insert;
use crate::standing::{Bodies, Due, Functions, Standing};
use tape::held::{sum, with_loop};
use word::Record;

impl Standing {
    // PROGRAM: an ARRAY is due next where there are arrays.
    #[tactic(auto, using(crate::proofs::Rows::scope_fresh), unfolding(tape::specs::Scan::headed, tape::specs::Scan::opening, crate::specs::Standing::due_of, crate::specs::Standing::known_to, crate::specs::Standing::opens_at, crate::specs::Standing::scan_of))]
    pub(crate) fn headed(x: Record, bodies: &mut Bodies) -> Self
        ensures { (f : Functions) → scan_of result f bodies.new ≡ headed x.p x.q }
    {
        bodies.defs[0] = 0;
        Standing {
            due: if x.q == 0 { Due::Function } else { Due::Array },
            functions: x.p,
            arrays: x.q,
            ..Standing::default()
        }
    }

    // ARRAY: they are records 1 to `arrays`.
    #[tactic(auto, unfolding(tape::specs::Scan::arrayed, crate::specs::Standing::due_of, crate::specs::Standing::scan_of))]
    pub(crate) fn arrayed(self, at: usize) -> Self
        ensures { (f : Functions) (b : Bodies) → scan_of result f b ≡ arrayed (scan_of self f b) at }
    {
        Standing {
            due: if at < self.arrays as usize {
                Due::Array
            } else {
                Due::Function
            },
            ..self
        }
    }

    // CFUNC begins a body.
    #[tactic(auto, using(crate::proofs::Rows::scope_fresh), unfolding(tape::specs::Scan::enters, tape::specs::Scan::opening, crate::specs::Standing::due_of, crate::specs::Standing::opens_at, crate::specs::Standing::scan_of))]
    pub(crate) fn entered(self, x: Record, at: usize, bodies: &mut Bodies) -> Self
        ensures { (f : Functions) → scan_of result f bodies.new ≡ enters (scan_of self f bodies.old) at x.p x.q }
    {
        bodies.defs[0] = 0;
        Standing {
            due: Due::Body,
            params: x.p,
            slots: x.q,
            place: at,
            operands: 0,
            steps: 0,
            deep: 0,
            ..self
        }
    }

    // An expression's record takes operands and leaves its value.
    #[tactic(auto, using(tape::proofs::Counts::hold_hold), unfolding(tape::specs::Held::held, tape::specs::Scan::in_body, tape::specs::Scan::leaves, crate::specs::Standing::scan_of))]
    pub(crate) fn leaves(self, taken: u32, counted: u32) -> Self
        requires { (taken ≤ self.operands) × (self.operands ≤ 128) }
        ensures { (f : Functions) (b : Bodies) → held (scan_of result f b) ≡ held (in_body (scan_of self f b) (leaves (scan_of self f b).body taken counted)) }
    {
        Standing {
            operands: self.operands - taken + 1,
            steps: sum(self.steps, counted),
            ..self
        }
    }

    // A statement's record counts one step and leaves no operands.
    #[tactic(auto, using(tape::proofs::Counts::hold_hold), unfolding(tape::specs::Held::held, tape::specs::Scan::in_body, tape::specs::Scan::states, crate::specs::Standing::scan_of))]
    pub(crate) fn states(self) -> Self
        ensures { (f : Functions) (b : Bodies) → held (scan_of result f b) ≡ held (in_body (scan_of self f b) (states (scan_of self f b).body (scan_of self f b).body.scope)) }
    {
        Standing {
            operands: 0,
            steps: sum(self.steps, 1),
            ..self
        }
    }

    // DEF puts its slot into the set of the innermost body.
    #[tactic(auto, using(crate::proofs::Stores::def_stands), unfolding(tape::specs::Scan::next))]
    pub(crate) fn defines(self, p: u32, bodies: &mut Bodies) -> Self
        requires { (self.deep < 9) × (p < 64) }
        ensures { (f : Functions) (at : ℕ) → held (scan_of result f bodies.new) ≡ held (next (scan_of self f bodies.old) at (def p)) }
    {
        let d = self.deep;
        bodies.defs[d] = insert(bodies.defs[d], p);
        self.states()
    }

    // FOR opens a body; the steps of the one round it wait.
    #[tactic(auto, using(crate::proofs::Stores::for_stands))]
    pub(crate) fn opens(self, x: Record, bodies: &mut Bodies) -> Self
        requires { (self.deep < 8) × (x.q ≤ x.r) }
        ensures { (f : Functions) (at : ℕ) → scan_of result f bodies.new ≡ next (scan_of self f bodies.old) at (for x.p x.q x.r) }
    {
        let d = self.deep;
        bodies.slots[d + 1] = x.p;
        bodies.passes[d + 1] = x.r - x.q;
        bodies.counts[d] = self.steps;
        bodies.defs[d + 1] = 0;
        Standing {
            operands: 0,
            steps: 0,
            deep: d + 1,
            ..self
        }
    }

    // END closes it: each pass counted its steps and FOR's one.
    #[tactic(auto, using(crate::proofs::Stores::end_stands))]
    pub(crate) fn closes(self, bodies: &Bodies) -> Self
        requires { (0 < self.deep) × (self.deep < 9) }
        ensures { (f : Functions) (at : ℕ) → held (scan_of result f bodies.now) ≡ held (next (scan_of self f bodies.now) at end) }
    {
        let d = self.deep;
        Standing {
            operands: 0,
            steps: with_loop(bodies.counts[d - 1], bodies.passes[d], self.steps),
            deep: d - 1,
            ..self
        }
    }

    // RET ends the function, which is known from now on; then a CFUNC is due, or nothing.
    pub(crate) fn returned(self, functions: &mut Functions) -> Self
        requires { self.known < 16 }
        ensures { (b : Bodies) (at x : ℕ) → held (scan_of result functions.new b) ≡ held (next (scan_of self functions.old b) at (ret x)) }
    {
        let n = self.known;
        functions.params[n] = self.params;
        functions.steps[n] = sum(self.steps, 1);
        functions.places[n] = self.place;
        Standing {
            due: if n + 1 == self.functions as usize {
                Due::Nothing
            } else {
                Due::Function
            },
            known: n + 1,
            ..self
        }
    }
}
