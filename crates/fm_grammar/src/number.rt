//! A number of the text.

use fm_lex::Spot;

/// A number and its spot. Its value is below 10^9.
#[derive(Clone, Copy, Debug, PartialEq, Eq)]
pub struct Number {
    pub value: u32,
    pub spot: Spot,
}
