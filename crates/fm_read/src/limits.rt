//! The limit of this reader.

/// The greatest length of a file that is read, in bytes.
pub const MAX_FILE: usize = 33_554_432;
