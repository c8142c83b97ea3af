//! What a word is.

ghost use Rattle.std.specs.Prelude.{◌≡◌, ◌≤◌, ◌<◌, IfSome};
ghost use Rattle.fm_lex.specs.Words.{register_of, index_of, degree_of, key_of, pitch_of, word_kind};

use crate::bytes::is_digit;
use crate::keyword::Keyword;
use crate::kind::Kind;

fn register_in(word: &[u8]) -> Option<u8>
    ensures { result ≡ register_of word.now }
{
    match word {
        [b'r', digit @ b'0'..=b'7'] => Some(*digit - b'0'),
        _ => None,
    }
}

fn index_in(word: &[u8]) -> Option<u8>
    ensures { result ≡ index_of word.now }
{
    match word {
        [b'n', digit @ b'0'..=b'9'] => Some(*digit - b'0'),
        [b'n', b'1', digit @ b'0'..=b'5'] => Some(10 + (*digit - b'0')),
        _ => None,
    }
}

fn degree_in(letter: u8) -> Option<u8>
    ensures value { result ≡ degree_of letter }
    ensures within { IfSome result (λ d. d ≤ 11) }
{
    match letter {
        b'c' => Some(0),
        b'd' => Some(2),
        b'e' => Some(4),
        b'f' => Some(5),
        b'g' => Some(7),
        b'a' => Some(9),
        b'b' => Some(11),
        _ => None,
    }
}

fn key_in(letter: u8, octave: u8) -> Option<u8>
    ensures value { result ≡ key_of (degree_of letter) octave }
    ensures within { IfSome result (λ k. (12 ≤ k) × (k ≤ 131)) }
{
    let degree = degree_in(letter)?;
    if is_digit(octave) {
        Some(12 * (octave - b'0' + 1) + degree)
    } else {
        None
    }
}

fn pitch_in(word: &[u8]) -> Option<u8>
    ensures { result ≡ pitch_of word.now }
{
    match word {
        [letter, octave] => key_in(*letter, *octave),
        [letter, b's', octave] => Some(key_in(*letter, *octave)? + 1),
        [letter, b'b', octave] => Some(key_in(*letter, *octave)? - 1),
        _ => None,
    }
}

/// The kind of a word: a keyword, a register, a loop index, a pitch, or else a name.
pub fn kind_of(word: &[u8]) -> Kind
    ensures { result ≡ word_kind word.now }
{
    if let Some(keyword) = Keyword::from_text(word) {
        Kind::Keyword(keyword)
    } else if let Some(register) = register_in(word) {
        Kind::Register(register)
    } else if let Some(index) = index_in(word) {
        Kind::Index(index)
    } else if let Some(key) = pitch_in(word) {
        Kind::Pitch(key)
    } else {
        Kind::Name
    }
}
