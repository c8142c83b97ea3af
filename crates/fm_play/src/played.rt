//! What was played.

/// The size of a piece that was played.
#[derive(Clone, Copy, Debug, PartialEq, Eq)]
pub struct Played {
    /// How many events.
    pub events: u64,
    /// The tick of End of Track.
    pub last: u64,
    /// The length of the file in bytes.
    pub bytes: u64,
}
