// Where the machine stands: small numbers by value. The arrays that they count into are lent.
ghost use Rattle.std.specs.Prelude.{◌≡◌, ◌<◌, ◌^◌};
ghost use Rattle.machine.specs.Flat.{free, count, frame};

// The present record; how many operands and open loops there are; where the present function's slots begin and end; how many calls are
// open; and the steps counted. That they are small is asked where they count on: a type can't keep it, as each step counts one more.
#[derive(Clone, Copy)]
pub(crate) struct Registers {
    pub at: usize,
    pub operands: usize,
    pub loops: usize,
    pub base: usize,
    pub top: usize,
    pub calls: usize,
    pub steps: u64,
}

// Three ways on, by the registers that they set.
impl Registers {
    // On to a record, for nothing.
    #[tactic(auto, unfolding(crate::specs::Flat::free))]
    pub(crate) fn free(self, at: usize, operands: usize, loops: usize) -> Registers
        ensures { result ≡ free self at operands loops }
    {
        Registers {
            at,
            operands,
            loops,
            ..self
        }
    }

    // On to a record, as one counted step.
    #[tactic(auto, unfolding(crate::specs::Flat::count))]
    pub(crate) fn count(self, at: usize, operands: usize, loops: usize) -> Registers
        requires { self.steps < 2 ^ 63 }
        ensures { result ≡ count self at operands loops }
    {
        Registers {
            at,
            operands,
            loops,
            steps: self.steps + 1,
            ..self
        }
    }

    // The same into another frame.
    #[tactic(auto, unfolding(crate::specs::Flat::frame))]
    pub(crate) fn frame(
        self,
        at: usize,
        operands: usize,
        base: usize,
        top: usize,
        calls: usize,
    ) -> Registers
        requires { self.steps < 2 ^ 63 }
        ensures { result ≡ frame self at operands base top calls }
    {
        Registers {
            at,
            operands,
            base,
            top,
            calls,
            steps: self.steps + 1,
            ..self
        }
    }
}
