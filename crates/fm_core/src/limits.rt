//! The limits of a performance.

/// The greatest lead, in ticks.
pub const MAX_LEAD: u64 = 1_000_000;

/// The greatest number of seats: the conductor's and those of 16 workers.
pub const MAX_SEATS: u32 = 17;
