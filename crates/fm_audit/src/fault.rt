//! Why a record is not accepted.

use fm_core::Reason;
use thiserror::Error;

/// Why a record is not accepted.
#[derive(Clone, Copy, Debug, PartialEq, Eq, Drop, Error)]
pub enum AuditFault {
    /// No step begins at this position of the steps, in bytes from 0. All before it were taken.
    #[error("no step begins at byte {position} of the steps")]
    BadStep { position: u32 },
    /// The step of this number, counted from 0, is refused for this reason.
    #[error("step {step} is refused: {reason:?}")]
    Refused { step: u32, reason: Reason },
    /// After so many steps, all that there are, not all is released and drained.
    #[error("the run breaks off after {steps} steps")]
    Unfinished { steps: u32 },
    /// The sink failed: its count of faults rose while the file was written.
    #[error("the file could not be written")]
    Sink,
    /// There is no memory.
    #[error("out of memory")]
    Memory,
}
