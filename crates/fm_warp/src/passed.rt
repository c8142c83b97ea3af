//! What the parts of a deformation up to one of them add.

ghost use Rattle.std.specs.Prelude.{◌≡◌, ◌<◌, [], ◌∷◌, ◌++◌, List};
ghost use Rattle.fm_warp.specs.Deformation.{IsPart};
ghost use Rattle.fm_warp.specs.declared.part.Part.{Part};
ghost use Rattle.fm_warp.specs.declared.side.Side.{Side};

use crate::{Part, Side};
use fm_tick::MAX_TICK;

/// What parts in a row, the first of a deformation among them, add to where the positions at their
/// end and above it lie.
#[derive(Clone, Copy, Debug, Default, PartialEq, Eq)]
pub(crate) struct Passed {
    /// The position at which they end.
    pub(crate) position: u64,
    /// The ticks that they add, but to a note-off at that position.
    onset: u64,
    /// The ticks that they add to a note-off at that position, which breaths there do not delay.
    ending: u64,
}

impl Passed {
    ghost use Rattle.fm_warp.specs.Passed.{Adds, IsSmall, added_of};

    /// What no parts add.
    pub(crate) fn none() -> Self
        ensures { Adds [] result }
    {
        Passed {
            position: 0,
            onset: 0,
            ending: 0,
        }
    }

    /// What they add to the tick `x`, which lies at their end or above it.
    pub(crate) fn added(self, side: Side, x: u64) -> u64
        requires { IsSmall self }
        ensures value { result ≡ added_of side self x }
        ensures small { result < MAX_TICK }
    {
        match side {
            Side::Onset => self.onset,
            Side::Ending => {
                if self.position < x {
                    self.onset
                } else {
                    self.ending
                }
            }
        }
    }

    /// What they and one part more add.
    pub(crate) fn past(self, part: Part) -> Self
        requires in_range { IsPart part }
        requires small { IsSmall self }
        ensures { (parts : List Part) → Adds parts self → Adds (parts ++ part ∷ []) result }
    {
        match part {
            Part::Flat { length, .. } | Part::Slope { length, .. } => {
                let length = u64::from(length);
                let all = self.onset + part.stretched(length);
                Passed {
                    position: self.position + length,
                    onset: all,
                    ending: all,
                }
            }
            Part::Pause { ticks } => Passed {
                onset: self.onset + u64::from(ticks),
                ending: self.ending + u64::from(ticks),
                ..self
            },
            Part::Breath { ticks } => Passed {
                onset: self.onset + u64::from(ticks),
                ..self
            },
        }
    }
}
