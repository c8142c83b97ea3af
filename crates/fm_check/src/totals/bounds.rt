//! The static totals of a score.

/// What a score asks for at most; the number of processes exactly.
#[derive(Clone, Copy, Debug, PartialEq, Eq)]
pub struct Bounds {
    /// Up to as many as the version of the score has.
    pub processes: u32,
    /// Up to `MAX_OPERATIONS`.
    pub operations: u32,
    /// In ticks, up to `MAX_TICK`.
    pub length: u64,
    /// Up to `MAX_EVENTS` of `fm_line`.
    pub events: u32,
    /// Up to `MAX_STEPS`.
    pub steps: u32,
}
