// The faults of one record, but for the slot rule: 22, 24 to 28.
ghost use Rattle.std.specs.Prelude.{◌≡◌, ◌&&◌, suc, ◌-◌, ◌≤◌, if◌then◌else◌, nat_le, nat_lt, slice_index};
ghost use Rattle.tape.specs.Scan.{Scan};
ghost use Rattle.tape.specs.Faults.{unless};
ghost use Rattle.checker.specs.Standing.{scan_of};
ghost use Rattle.checker.specs.Ready.{said, fields_fault, fault_but};
ghost use Rattle.checker.specs.declared.standing.Functions.{Functions};
ghost use Rattle.checker.specs.declared.standing.Bodies.{Bodies};

use crate::standing::{Due, Functions, Standing};
use word::Record;
use word::reason::Reason;

// 28: so many operands are there to take, and one is left. Two comparisons, as 28 says them: a checked difference would have to be tested as well.
fn takes(operands: u32, n: u32) -> bool
    ensures { result ≡ nat_le n operands && nat_le (suc (operands - n)) 128 }
{
    n <= operands && operands - n < 128
}

// The first test that fails. Four tests here and two for a table, for other reasons: one function for both would be told the reasons at each call.
#[tactic(auto, unfolding(crate::specs::Ready::said, tape::specs::Faults::unless))]
fn unmet(blank: bool, range: bool, loops: bool, operands: bool) -> Result<(), Reason>
    ensures { said result ≡ unless blank 24 (unless range 25 (unless loops 27 (unless operands 28 0))) }
{
    if !blank {
        Err(Reason::TapeUnused)
    } else if !range {
        Err(Reason::TapeRange)
    } else if !loops {
        Err(Reason::Loops)
    } else if !operands {
        Err(Reason::Operands)
    } else {
        Ok(())
    }
}

// PROGRAM, ARRAY, CFUNC. The class was decided by its range; here are the single kinds.
#[tactic(auto, using(tape::proofs::Cases::read_program, tape::proofs::Cases::read_array, tape::proofs::Cases::read_cfunc, crate::proofs::Blanks::blank_p, crate::proofs::Blanks::blank_pq), unfolding(crate::specs::Ready::fields_fault, tape::specs::Instruction::write, tape::specs::Faults::asks, tape::specs::Faults::unmet, tape::specs::Faults::unless))]
fn declaration_fault(x: Record) -> Result<(), Reason>
    requires { (1 ≤ x.kind) × (x.kind ≤ 3) }
    ensures { (s : Scan) → said result ≡ fields_fault s x }
{
    match x.kind {
        1 => unmet(x.r == 0, (1 <= x.p) & (x.p <= 16) & (x.q <= 8), true, true),
        2 => unmet(
            (x.q == 0) & (x.r == 0),
            (1 <= x.p) & (x.p <= 4096),
            true,
            true,
        ),
        _ => unmet(
            x.r == 0,
            (x.p <= 8) & (x.p <= x.q) & (x.q <= 64),
            true,
            true,
        ),
    }
}

impl Functions {
    // The parameters of function f, or 0 where it is not known.
    fn params_of(&self, known: usize, f: u32) -> u32
        requires { known ≤ 16 }
        ensures { result ≡ (if nat_lt f known then slice_index self.now.params f else 0) }
    {
        self.params[..known].get(f as usize).copied().unwrap_or(0)
    }
}

impl Standing {
    // The records of expressions.
    #[tactic(auto, using(tape::proofs::Cases::read_lit, tape::proofs::Cases::read_var, tape::proofs::Cases::read_get, tape::proofs::Cases::read_not, tape::proofs::Cases::read_bin, tape::proofs::Cases::read_call, crate::proofs::Blanks::blank, crate::proofs::Blanks::blank_p, crate::proofs::Rows::known_length, crate::proofs::Rows::params_at_lem), unfolding(crate::specs::Ready::fields_fault, tape::specs::Instruction::write, tape::specs::Faults::asks, tape::specs::Faults::unmet, tape::specs::Faults::takes, tape::specs::Faults::just, tape::specs::Faults::unless, crate::specs::Standing::scan_of))]
    fn expression_fault(self, x: Record, functions: &Functions) -> Result<(), Reason>
        requires { (10 ≤ x.kind) × (x.kind ≤ 15) × (self.known ≤ 16) }
        ensures { (b : Bodies) → said result ≡ fields_fault (scan_of self functions.now b) x }
    {
        let blank = (x.q == 0) & (x.r == 0);
        match x.kind {
            10 => unmet(blank, true, true, takes(self.operands, 0)),
            11 => unmet(blank, x.p < self.slots, true, takes(self.operands, 0)),
            12 => unmet(blank, x.p < self.arrays, true, takes(self.operands, 1)),
            13 => unmet((x.p == 0) & blank, true, true, takes(self.operands, 1)),
            14 => unmet(
                blank,
                (1 <= x.p) & (x.p <= 13),
                true,
                takes(self.operands, 2),
            ),
            _ => unmet(
                blank,
                (x.p as usize) < self.known,
                true,
                takes(self.operands, functions.params_of(self.known, x.p)),
            ),
        }
    }

    // The records of statements.
    #[tactic(auto, using(tape::proofs::Cases::read_def, tape::proofs::Cases::read_set, tape::proofs::Cases::read_put, tape::proofs::Cases::read_for, tape::proofs::Cases::read_end, tape::proofs::Cases::read_ret, crate::proofs::Blanks::blank, crate::proofs::Blanks::blank_p, crate::proofs::Blanks::blank_pqr, crate::proofs::Rows::opens_length), unfolding(crate::specs::Ready::fields_fault, tape::specs::Instruction::write, tape::specs::Faults::asks, tape::specs::Faults::unmet, tape::specs::Faults::takes, tape::specs::Faults::just, tape::specs::Faults::unless, crate::specs::Standing::scan_of))]
    fn statement_fault(self, x: Record) -> Result<(), Reason>
        requires { (16 ≤ x.kind) × (x.kind ≤ 21) }
        ensures { (f : Functions) (b : Bodies) → said result ≡ fields_fault (scan_of self f b) x }
    {
        let blank = (x.q == 0) & (x.r == 0);
        match x.kind {
            16 => unmet(blank, x.p < self.slots, true, self.operands == 1),
            17 => unmet(blank, x.p < self.slots, true, self.operands == 1),
            18 => unmet(blank, x.p < self.arrays, true, self.operands == 2),
            19 => unmet(
                true,
                (x.p < self.slots) & (x.q <= x.r),
                self.deep < 8,
                self.operands == 0,
            ),
            20 => unmet((x.p == 0) & blank, true, 0 < self.deep, self.operands == 0),
            _ => unmet(blank, x.p < self.slots, self.deep == 0, self.operands == 0),
        }
    }

    // The record's fault, its lowest number.
    #[tactic(auto, using(std::proofs::lemmas::Bool::Decides::nat_tests), unfolding(crate::specs::Ready::fault_but, crate::specs::Ready::said, tape::specs::Faults::more, tape::specs::Faults::due, tape::specs::Faults::unless, crate::specs::Standing::due_of, crate::specs::Standing::scan_of))]
    pub(crate) fn fault(self, x: Record, functions: &Functions) -> Result<(), Reason>
        requires { self.known ≤ 16 }
        ensures { (b : Bodies) → said result ≡ fault_but (scan_of self functions.now b) x }
    {
        match (self.due, x.kind) {
            (Due::Program, 1) | (Due::Array, 2) | (Due::Function, 3) => declaration_fault(x),
            (Due::Body, 10..=15) => self.expression_fault(x, functions),
            (Due::Body, 16..=21) => self.statement_fault(x),
            (Due::Nothing, _) => Err(Reason::TapeExtra),
            _ => Err(Reason::TapeKind),
        }
    }
}
