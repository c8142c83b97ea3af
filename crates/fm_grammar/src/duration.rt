//! A duration.

use crate::length::Length;
use crate::number::Number;
use fm_value::Expr;

/// How long a note or a rest is.
#[derive(Drop)]
pub enum Duration {
    Fixed { length: Length },
    /// As many ticks as the value says, from 0 to `most`.
    Computed { value: Expr, most: Number },
}
