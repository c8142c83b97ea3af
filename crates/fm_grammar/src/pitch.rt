//! A pitch of a note.

use crate::amount::Amount;
use fm_lex::Spot;

/// A pitch by its name, as a MIDI key that may be 128, or by a value behind the word `key`.
#[derive(Drop)]
pub enum Pitch {
    Named { key: u8, spot: Spot },
    /// The spot is that of the word.
    Key { amount: Amount, spot: Spot },
}
