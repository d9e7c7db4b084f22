// The arrays that the registers count into. They are lent, and never copied.
ghost use Rattle.std.specs.Prelude.{◌≡◌, ◌+◌, ◌-◌, ◌<◌, ◌≤◌, ◌^◌, get_or, set as put_at};
ghost use Rattle.word.specs.Value.{op, flip};
ghost use Rattle.word.specs.Code.{op_of};
ghost use Rattle.machine.specs.Flat.{free, count, with_operands, with_slots, Small, Holds};

use crate::registers::Registers;

// An open loop: the record of its FOR, and its present number.
#[derive(Clone, Copy)]
pub(crate) struct Loop {
    pub at: u32,
    pub pass: u32,
}

// An open call: the record to go back to, and where the caller's slots begin.
#[derive(Clone, Copy)]
pub(crate) struct Frame {
    pub back: usize,
    pub base: usize,
}

// The slots of every open call, and the open calls; the open loops; and the operands. The order is for speed: a load waits for a store that is a whole
// number of pages away, and slots and operands are whole pages, so these two, which are used together, do not lie side by side.
#[derive(Drop)]
pub(crate) struct Stacks {
    pub slots: [u32; 1024],
    pub frames: [Frame; 16],
    pub loops: [Loop; 128],
    pub operands: [u32; 2048],
}

// Each asks for the room that the check has shown to be there.
impl Stacks {
    pub(crate) fn literal(&mut self, g: Registers, v: u32) -> Registers
        requires { (g.at < 2 ^ 32) × (g.operands < 2048) }
        ensures { (result ≡ free g (g.at + 1) (g.operands + 1) g.loops)
            × (self.new ≡ with_operands self.old (put_at self.old.operands g.operands v)) }
    {
        self.operands[g.operands] = v;
        g.free(g.at + 1, g.operands + 1, g.loops)
    }

    pub(crate) fn variable(&mut self, g: Registers, x: u32) -> Registers
        requires { Small g × (g.operands < 2048) × (g.base + x < 1024) }
        ensures { (result ≡ count g (g.at + 1) (g.operands + 1) g.loops)
            × (self.new ≡ with_operands self.old (put_at self.old.operands g.operands (get_or self.old.slots (g.base + x) 0))) }
    {
        self.operands[g.operands] = self.slots[g.base + x as usize];
        g.count(g.at + 1, g.operands + 1, g.loops)
    }

    pub(crate) fn complement(&mut self, g: Registers) -> Registers
        requires { Small g × Holds 1 g }
        ensures { (result ≡ count g (g.at + 1) g.operands g.loops)
            × (self.new ≡ with_operands self.old (put_at self.old.operands (g.operands - 1) (flip (get_or self.old.operands (g.operands - 1) 0)))) }
    {
        let j = g.operands - 1;
        self.operands[j] = word::operators::complement(self.operands[j]);
        g.count(g.at + 1, g.operands, g.loops)
    }

    pub(crate) fn operate(&mut self, g: Registers, o: u32) -> Registers
        requires { Small g × Holds 2 g }
        ensures { (result ≡ count g (g.at + 1) (g.operands - 1) g.loops)
            × (self.new ≡ with_operands self.old (put_at self.old.operands (g.operands - 2)
            (op (op_of o) (get_or self.old.operands (g.operands - 2) 0) (get_or self.old.operands (g.operands - 1) 0)))) }
    {
        let i = g.operands - 2;
        let j = g.operands - 1;
        self.operands[i] = word::operators::apply(o, self.operands[i], self.operands[j]);
        g.count(g.at + 1, j, g.loops)
    }

    // DEF and SET.
    pub(crate) fn assign(&mut self, g: Registers, x: u32) -> Registers
        requires { Small g × Holds 1 g × (g.base + x < 1024) }
        ensures { (result ≡ count g (g.at + 1) (g.operands - 1) g.loops)
            × (self.new ≡ with_slots self.old (put_at self.old.slots (g.base + x) (get_or self.old.operands (g.operands - 1) 0))) }
    {
        let j = g.operands - 1;
        self.slots[g.base + x as usize] = self.operands[j];
        g.count(g.at + 1, j, g.loops)
    }
}
