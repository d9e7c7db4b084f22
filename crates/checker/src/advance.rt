// The scan after a record that has no fault, by the record's kind: the class first, then the kind.
ghost use Rattle.std.specs.Prelude.{◌≡◌, ℕ, ◌≤◌};
ghost use Rattle.tape.specs.Instruction.{read};
ghost use Rattle.tape.specs.Scan.{next};
ghost use Rattle.tape.specs.Held.{held};
ghost use Rattle.checker.specs.Standing.{scan_of};
ghost use Rattle.checker.specs.Ready.{Ready};
ghost use Rattle.checker.specs.declared.standing.Functions.{Functions};
ghost use Rattle.checker.specs.declared.standing.Bodies.{Bodies};

use crate::standing::{Bodies, Functions, Standing};
use tape::held::sum;
use word::Record;
use word::reader::Reader;

impl Standing {
    // PROGRAM, ARRAY, CFUNC.
    #[tactic(auto, using(tape::proofs::Cases::read_program, tape::proofs::Cases::read_array, tape::proofs::Cases::read_cfunc), unfolding(tape::specs::Scan::next))]
    fn declared(self, x: Record, at: usize, bodies: &mut Bodies) -> Self
        requires { (1 ≤ x.kind) × (x.kind ≤ 3) }
        ensures { (f : Functions) → held (scan_of result f bodies.new) ≡ held (next (scan_of self f bodies.old) at (read x)) }
    {
        match x.kind {
            1 => Standing::headed(x, bodies),
            2 => self.arrayed(at),
            _ => self.entered(x, at, bodies),
        }
    }

    // The records of expressions.
    #[tactic(auto, using(tape::proofs::Cases::read_lit, tape::proofs::Cases::read_var, tape::proofs::Cases::read_get, tape::proofs::Cases::read_not, tape::proofs::Cases::read_bin, crate::proofs::Allowed::lit_of, crate::proofs::Allowed::var_of, crate::proofs::Allowed::get_of, crate::proofs::Allowed::not_of, crate::proofs::Allowed::bin_of, crate::proofs::Allowed::call_within, crate::proofs::Allowed::call_takes, crate::proofs::Allowed::call_of, crate::proofs::Allowed::call_known, tape::proofs::Cases::read_call), unfolding(tape::specs::Scan::next))]
    fn expressed(self, x: Record, functions: &Functions) -> Self
        requires kind { (10 ≤ x.kind) × (x.kind ≤ 15) }
        requires ready { (b : Bodies) × Ready (scan_of self functions.now b) x }
        ensures { (b : Bodies) (at : ℕ) → held (scan_of result functions.now b) ≡ held (next (scan_of self functions.now b) at (read x)) }
    {
        match x.kind {
            10 => self.leaves(0, 0),
            11 => self.leaves(0, 1),
            12 => self.leaves(1, 1),
            13 => self.leaves(1, 1),
            14 => self.leaves(2, 1),
            _ => {
                let f = x.p as usize;
                self.leaves(functions.params[f], sum(functions.steps[f], 1))
            }
        }
    }

    // The records of statements, but for RET.
    #[tactic(auto, using(tape::proofs::Cases::read_def, tape::proofs::Cases::read_for, tape::proofs::Cases::read_end, crate::proofs::Stores::set_next, crate::proofs::Stores::put_next, crate::proofs::Allowed::deep_below, crate::proofs::Allowed::def_of, crate::proofs::Allowed::for_of, crate::proofs::Allowed::end_of))]
    fn stated(self, x: Record, bodies: &mut Bodies) -> Self
        requires kind { (16 ≤ x.kind) × (x.kind ≤ 20) }
        requires ready { (f : Functions) × Ready (scan_of self f bodies.old) x }
        ensures { (f : Functions) (at : ℕ) → held (scan_of result f bodies.new) ≡ held (next (scan_of self f bodies.old) at (read x)) }
    {
        match x.kind {
            16 => self.defines(x.p, bodies),
            17 => self.states(),
            18 => self.states(),
            19 => self.opens(x, bodies),
            _ => self.closes(bodies),
        }
    }

    #[tactic(auto, using(tape::proofs::Cases::read_ret, crate::proofs::Allowed::kinds_of, crate::proofs::Allowed::ret_of))]
    pub(crate) fn advance(
        self,
        x: Record,
        at: Reader,
        functions: &mut Functions,
        bodies: &mut Bodies,
    ) -> Self
        requires { Ready (scan_of self functions.old bodies.old) x }
        ensures { held (scan_of result functions.new bodies.new) ≡ held (next (scan_of self functions.old bodies.old) at.at (read x)) }
    {
        match x.kind {
            1..=3 => self.declared(x, at.at, bodies),
            10..=15 => self.expressed(x, functions),
            16..=20 => self.stated(x, bodies),
            _ => self.returned(functions),
        }
    }
}
