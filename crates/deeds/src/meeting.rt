// What a step makes of a block, as far as one look tells.
#[derive(Clone, Copy)]
pub enum Meeting {
    // The step touches no pixel of it.
    Apart,
    // It becomes one leaf, with these bits.
    Leaf(u32),
    // Its list becomes the records of the log from a place on, so many, two or more.
    Content(usize, usize),
    // Its quadrants have to be asked.
    Cut,
}

impl Meeting {
    ghost use Rattle.std.specs.Prelude.{◌≡◌};
    ghost use Rattle.deeds.specs.Meeting.{is_cut};

    pub fn is_cut(self) -> bool
        ensures { result ≡ is_cut self }
    {
        matches!(self, Meeting::Cut)
    }
}
