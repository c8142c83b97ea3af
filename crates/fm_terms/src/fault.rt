//! Why a text is refused.

use fm_lex::{LexFault, Spot};
use thiserror::Error;

/// Why a text was not read.
#[derive(Clone, Copy, Debug, PartialEq, Eq, Drop, Error)]
pub enum ParseFault {
    /// No token begins at a spot.
    #[error("{0}")]
    Lex(LexFault),
    /// With the token at the spot no text of the grammar goes on.
    #[error("{spot}: this token can't stand here")]
    Expected { spot: Spot },
    /// The token at the spot needs more than 64 open braces or tokens of an expression.
    #[error("{spot}: at most 64 braces are open, and an expression has at most 64 tokens")]
    TooNested { spot: Spot },
    /// There was no memory for the tree.
    #[error("out of memory")]
    Memory,
}
