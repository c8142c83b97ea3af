//! The head of a score.

use crate::number::Number;

/// The version of a score, its division and its seed.
#[derive(Clone, Copy)]
pub struct Head {
    pub version: Number,
    pub division: Option<Number>,
    pub seed: Option<Number>,
}
