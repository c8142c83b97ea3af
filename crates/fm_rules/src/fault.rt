//! Faults of a score.

ghost use Rattle.std.specs.Prelude.{◌≡◌};

use crate::Why;
use fm_lex::Spot;
use std::alloc::AllocError;
use thiserror::Error;

/// A fault of a score: why it is refused, and where.
#[derive(Clone, Copy, Debug, PartialEq, Eq)]
pub struct Fault {
    pub why: Why,
    pub spot: Spot,
}

/// What keeps a score from being accepted.
#[derive(Clone, Copy, Debug, PartialEq, Eq, Drop, Error)]
pub enum CheckFault {
    /// The first fault of the score.
    #[error("{spot}: {why}")]
    Refused { why: Why, spot: Spot },
    /// Want of memory.
    #[error("out of memory")]
    Memory,
}

impl From<AllocError> for CheckFault {
    ghost use Rattle.fm_rules.specs.declared.fault.CheckFault.TheVariants.{Memory};

    ghost from_gives = { λ _ e. e ≡ Memory };

    fn from(_: AllocError) -> Self {
        CheckFault::Memory
    }
}

/// The score is refused for this fault.
pub fn refused(fault: Fault) -> CheckFault
    ensures { result ≡ CheckFault.Refused fault.why fault.spot }
{
    CheckFault::Refused {
        why: fault.why,
        spot: fault.spot,
    }
}
