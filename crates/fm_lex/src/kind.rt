//! The kinds of tokens.

use crate::keyword::Keyword;

/// What a token is. A number is below 10^9; a pitch is a MIDI key, or above 127 for the pitches
/// from `gs9` (128) to `bs9` (132); a register is 0 to 7; an index is 0 to 15; a symbol is its byte.
#[derive(Clone, Copy, PartialEq, Eq)]
pub enum Kind {
    Name,
    Number(u32),
    Pitch(u8),
    Register(u8),
    Index(u8),
    Keyword(Keyword),
    Symbol(u8),
    End,
}
