// The check of a tape: 21; one scan over the records, 22 to 29; then 30.
ghost use Rattle.std.specs.Prelude.{◌≡◌, ℕ, ◌≤◌};
ghost use Rattle.word.specs.Records.{records_of};
ghost use Rattle.tape.specs.Scan.{start};
ghost use Rattle.tape.specs.Faults.{more};
ghost use Rattle.tape.specs.Check.{at_end, judge, scan, check};
ghost use Rattle.checker.specs.Standing.{due_of, scan_of};
ghost use Rattle.checker.specs.Ready.{Room, FirstOver, said};
ghost use Rattle.checker.specs.declared.standing.Bodies.{Bodies};

use crate::slots::{Seen, most, outside, searched};
use crate::standing::{Bodies, Due, Functions, Standing};
use tape::held::LIMIT;
use word::reader::Reader;
use word::reason::Reason;
use word::{Refusal, sized};

impl Due {
    // Whether more is due.
    #[tactic(auto, unfolding(tape::specs::Faults::more, crate::specs::Standing::due_of))]
    fn more(self) -> bool
        ensures { result ≡ more (due_of self) }
    {
        self != Due::Nothing
    }
}

impl Functions {
    // The first of the known functions whose steps are over the limit.
    fn first_over(&self, known: usize) -> Option<usize>
        requires { known ≤ 16 }
        ensures { FirstOver self.now.steps known result }
    {
        self.steps[..known].iter().position(|&steps| LIMIT < steps)
    }
}

impl Standing {
    // The answer where the scan has left the records: at a fault, or after the last one.
    fn answer(
        self,
        found: Result<(), Reason>,
        at: Reader,
        functions: &Functions,
    ) -> Result<u32, Refusal>
        requires { (self.known ≤ 16) × Room (due_of self.due) self.known self.functions }
        ensures { (b : Bodies) → result ≡ judge (said found) at.at (at_end (more (due_of self.due)) (scan_of self functions.now b) at.at) }
    {
        found.map_err(|reason| at.refusal(reason))?;
        if self.due.more() {
            return Err(at.refusal(Reason::TapeEnds));
        }
        if let Some(f) = functions.first_over(self.known) {
            return Err(Refusal::new(Reason::Steps, functions.places[f]));
        }
        Ok(functions.steps[self.known - 1])
    }
}

// The scan. The bodies that are open round a record are searched for its slot, from the innermost out, and the scan is left from within the
// search as soon as what is found forbids the record; where it stopped is asked afterwards, so it is a loop with a label.
fn scan(tape: &[u32]) -> Result<u32, Refusal>
    ensures { result ≡ scan start 0 (records_of tape.now) }
{
    let mut functions = Functions::default();
    let mut bodies = Bodies::default();
    let mut s = Standing::default();
    let mut at = Reader::new();
    let mut found = Ok(());
    'scan: while let Some((x, next)) = at.next(tape) {
        found = s.fault(x, &functions);
        if found.is_err() {
            break 'scan;
        }
        let most = most(x.kind);
        let mut d = searched(x.kind, s.deep);
        'bodies: while 0 < d {
            let shown = bodies.shown(d, x.p);
            if most < shown {
                found = Err(Reason::Slot);
                break 'scan;
            }
            if shown != Seen::Hidden {
                break 'bodies;
            }
            d -= 1;
        }
        if outside(x.kind, most, bodies.visible(s.params, d, x.p)) {
            found = Err(Reason::Slot);
            break 'scan;
        }
        s = s.advance(x, at, &mut functions, &mut bodies);
        at = next;
    }
    s.answer(found, at, &functions)
}

#[tactic(auto, unfolding(tape::specs::Check::check))]
pub fn check(tape: &[u32]) -> Result<u32, Refusal>
    ensures { result ≡ check tape.now }
{
    if !sized(131072, tape.len()) {
        return Err(Refusal::new(Reason::TapeWords, 0));
    }
    scan(tape)
}
