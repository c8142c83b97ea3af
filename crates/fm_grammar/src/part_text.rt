//! A part of a shape.

use crate::length::Length;
use crate::number::Number;

/// A part of a time deformation: `flat` and `slope` have a length and stretches in thousandths, a
/// pause delays all that follows, a breath all but the note-offs at its place.
#[derive(Clone, Copy)]
pub enum PartText {
    Flat {
        length: Length,
        by: Number,
    },
    Slope {
        length: Length,
        by: Number,
        to: Number,
    },
    Pause {
        length: Length,
    },
    Breath {
        length: Length,
    },
}
