//! The greatest tick.

/// The greatest position and the greatest length at any level, in ticks: 2^40.
pub const MAX_TICK: u64 = 1_099_511_627_776;
