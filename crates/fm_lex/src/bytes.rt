//! The classes of bytes.

ghost use Rattle.std.specs.Prelude.{◌≡◌};
ghost use Rattle.fm_lex.specs.Bytes.{is_digit, is_letter, in_word, is_blank, is_symbol};

/// Whether a byte is a digit.
pub fn is_digit(byte: u8) -> bool
    ensures { result ≡ is_digit byte }
{
    byte.is_ascii_digit()
}

/// Whether a byte is a small letter, with which words begin.
pub fn is_letter(byte: u8) -> bool
    ensures { result ≡ is_letter byte }
{
    byte.is_ascii_lowercase()
}

/// Whether a byte may stand in a word: a small letter, a digit or `_`.
pub fn in_word(byte: u8) -> bool
    ensures { result ≡ in_word byte }
{
    is_letter(byte) || is_digit(byte) || byte == b'_'
}

/// Whether a byte is a space, a tab, a line feed or a carriage return.
pub fn is_blank(byte: u8) -> bool
    ensures { result ≡ is_blank byte }
{
    byte == b' ' || byte == b'\t' || byte == b'\n' || byte == b'\r'
}

/// Whether a byte is a token of its own.
pub fn is_symbol(byte: u8) -> bool
    ensures { result ≡ is_symbol byte }
{
    b";{}()[],=/+-*%".contains(&byte)
}
