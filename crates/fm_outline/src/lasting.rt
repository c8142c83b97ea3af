//! A duration.

/// How long a note or a rest is.
#[derive(Clone, Copy, Debug, PartialEq, Eq)]
pub enum Lasting {
    Ticks { ticks: u32 },
    /// The value of an expression, by its index in the table, clamped to 0 and `most` ticks.
    Computed { expr: u32, most: u32 },
    /// The next entry of the innermost rhythm.
    Beat,
}
