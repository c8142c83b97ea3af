//! A name of the text.

use fm_lex::Spot;

/// A name, which is a slice of the source, and its spot.
#[derive(Clone, Copy, Debug, PartialEq, Eq)]
pub struct Name<'s> {
    pub text: &'s [u8],
    pub spot: Spot,
}
