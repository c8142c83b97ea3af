//! A length.

use crate::number::Number;

/// A share of a whole note, or a number of ticks.
#[derive(Clone, Copy)]
pub enum Length {
    /// `over / under` of a whole note, which is four quarter notes.
    Share { over: Number, under: Number },
    Ticks { count: Number },
}
