//! The limits of rounds.

/// The most worker threads of a round.
pub const MAX_WORKERS: u32 = 16;
