//! The limits of lines.

/// The most processes that one piece has.
pub const MAX_PROCESSES: u32 = 16_384;

/// The most events of all its processes together.
pub const MAX_EVENTS: u32 = 4_000_000;

/// The last tick at which a process may end: 2^40. A number of this crate, which needs nothing else
/// of one that has it.
pub const LAST_TICK: u64 = 1_099_511_627_776;
