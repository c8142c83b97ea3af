//! Why a score is refused.

ghost use Rattle.std.specs.Prelude.{◌≡◌, Some};
ghost use Rattle.fm_rules.specs.Why.{why_number, why_text};

use std::fmt;

/// Why a score is refused. The faults of a text with lower numbers are the parser's.
#[derive(Clone, Copy, Debug, PartialEq, Eq, Drop)]
pub enum Why {
    /// A shape or phrase of this name was defined before.
    DoubleName,
    /// No phrase, or no shape, of this name was defined before.
    UnknownName,
    /// A number is outside its range, or an entry is one too many.
    OutOfRange,
    /// A length is no whole number of ticks.
    NotTicks,
    /// A fork stands where it may be played or not, or a computed number of times.
    ForkInChoice,
    /// A duration of the rhythm is asked for where no rhythm is open.
    PlayOutsideRhythm,
    /// The index of a loop is asked for that is not open.
    IndexOutsideLoop,
    /// A block stands inside too many.
    TooDeep,
    /// More processes than there may be.
    TooManyProcesses,
    /// More operations than there may be.
    TooManyOperations,
    /// The score may end past the last tick.
    TooLong,
    /// More events than there may be.
    TooManyEvents,
    /// More steps than there may be.
    TooManySteps,
}

impl Why {
    /// The number of the fault, 5 to 17.
    pub fn number(self) -> u8
        ensures { result ≡ why_number self }
    {
        match self {
            Why::DoubleName => 5,
            Why::UnknownName => 6,
            Why::OutOfRange => 7,
            Why::NotTicks => 8,
            Why::ForkInChoice => 9,
            Why::PlayOutsideRhythm => 10,
            Why::IndexOutsideLoop => 11,
            Why::TooDeep => 12,
            Why::TooManyProcesses => 13,
            Why::TooManyOperations => 14,
            Why::TooLong => 15,
            Why::TooManyEvents => 16,
            Why::TooManySteps => 17,
        }
    }
}

/// The number of the fault.
impl fmt::Display for Why {
    ghost output = { λ why. Some (why_text why) };

    fn fmt<W: fmt::Write>(&self, f: &mut fmt::Formatter<W>) -> fmt::Result {
        write!(f, "fault {}", self.number())
    }
}
