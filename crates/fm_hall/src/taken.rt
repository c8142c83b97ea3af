//! What a step answers.
use fm_core::Reason;

/// Whether a step was taken.
#[derive(Clone, Copy, Debug, PartialEq, Eq, Drop)]
pub enum Taken {
    /// It was taken.
    Taken,
    /// It was refused for this reason, and nothing changed.
    Refused(Reason),
}
