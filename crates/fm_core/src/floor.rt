//! The lower bound on what is still to come.
ghost use Rattle.std.specs.Prelude.{◌≡◌};
ghost use Rattle.fm_core.specs.Floors.{floor_eq, within};

/// A tick that no event still to be computed lies below, or that none is still to come.
#[derive(Clone, Copy, Debug, PartialEq, Eq, Drop)]
pub enum Floor {
    /// No event still to be computed lies below this tick.
    At(u64),
    /// All processes are at their ends.
    Done,
}

impl Floor {
    /// Whether two floors are the same.
    pub fn is_same(self, other: Floor) -> bool
        ensures { result ≡ floor_eq self other }
    {
        match (self, other) {
            (Floor::At(tick), Floor::At(other_tick)) => tick == other_tick,
            (Floor::Done, Floor::Done) => true,
            _ => false,
        }
    }

    /// Whether a time is at most the floor plus the lead, both in ticks. Where all is done there
    /// is no bound.
    pub fn is_within(self, lead: u64, time: u64) -> bool
        ensures { result ≡ within self lead time }
    {
        match self {
            Floor::At(tick) => time <= tick || time - tick <= lead,
            Floor::Done => true,
        }
    }
}
