//! The limit of records that are read.

/// The most bytes of a record that is read.
pub const MAX_RECORD: usize = 67_108_864;
