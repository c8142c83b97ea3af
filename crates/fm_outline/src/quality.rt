//! What a list gives to notes.

/// What a list, or a number for all notes of a block, is about.
#[derive(Clone, Copy, Debug, PartialEq, Eq)]
pub enum Quality {
    /// In ticks.
    Duration,
    /// In percent of the duration.
    Articulation,
    /// As a velocity.
    Loudness,
}
