//! A token of a text, and why there is none.

use crate::kind::Kind;
use crate::spot::Spot;
use thiserror::Error;

/// A token: its bytes in the source and the spot of the first one. The end of the text has no
/// bytes, and the spot after the last byte.
#[derive(Clone, Copy)]
pub struct Token<'s> {
    pub kind: Kind,
    pub text: &'s [u8],
    pub spot: Spot,
}

/// Why no token begins at a spot.
#[derive(Clone, Copy, Debug, PartialEq, Eq, Drop, Error)]
pub enum LexFault {
    /// The byte at the spot begins no token.
    #[error("{spot}: no token begins with this byte")]
    BadByte { spot: Spot },
    /// The digits at the spot are more than nine, or a letter or `_` follows them.
    #[error("{spot}: a number has at most nine digits, and no letter behind them")]
    BadNumber { spot: Spot },
}
