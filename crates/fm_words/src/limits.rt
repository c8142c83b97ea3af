//! The ranges of the numbers among the words, and what stands where a number is not given.

/// The most worker threads; 0 plays on the calling thread alone.
pub const MAX_WORKERS: u64 = 16;

/// The worker threads where the words do not say.
pub const DEFAULT_WORKERS: u64 = 4;

/// The greatest lead in ticks: how far a process may run ahead of the safe time.
pub const MAX_LEAD: u64 = 1_000_000;

/// The lead in ticks where the words do not say: four whole notes.
pub const DEFAULT_LEAD: u64 = 7_680;

/// The least room of a process's event queue, in events.
pub const MIN_ROOM: u64 = 1;

/// The greatest room of a process's event queue, in events.
pub const MAX_ROOM: u64 = 64;

/// The room in events where the words do not say.
pub const DEFAULT_ROOM: u64 = 32;

/// The greatest number of a large score that is played in place of a text.
pub const MAX_GENERATE: u32 = 999_999_999;

/// The greatest tick that an option names: 2^40, past which no score goes. A number of this crate,
/// which needs nothing else of one that has it.
pub const MAX_TICK_ASKED: u64 = 1_099_511_627_776;

/// The greatest number of a process that is asked for.
pub const MAX_PROCESS: u64 = 16_383;

/// The process that is asked for where the words do not say.
pub const DEFAULT_PROCESS: u64 = 0;
