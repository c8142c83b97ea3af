//! The lexer.

ghost use Rattle.std.specs.Prelude.{◌≡◌, ◌≤◌, ◌<◌, ◌+◌, ◌^◌, ◌∷◌, drop, length, slice_index, true, All, IfOk};
ghost use Rattle.std.specs.List.{prefix_len};
ghost use Rattle.fm_lex.specs.Bytes.{is_digit, in_word, decimal, after_byte};
ghost use Rattle.fm_lex.specs.Tokens.{most_digits, begins_word, lexed_of, text_of, lexed_at, between, comment, walk, tokens, advanced};
ghost use Rattle.fm_lex.specs.Room.{SpotsFit, BeginsToken, BeginsDigit};

use crate::bytes::{in_word, is_blank, is_digit, is_letter, is_symbol};
use crate::kind::Kind;
use crate::spot::{START, Spot};
use crate::token::{LexFault, Token};
use crate::word::kind_of;
use std::marker::Model;

/// The most bytes of a text.
pub const MAX_TEXT: usize = 1_048_576;

const MOST_DIGITS: usize = 9;

/// Reads the tokens of a text. A contract sees it as the list of what its calls still give.
#[derive(Drop)]
pub struct Lexer<'s> {
    rest: &'s [u8],
    spot: Spot,
}

impl<'s> Model for Lexer<'s> {
    ghost use Rattle.std.specs.Prelude.{List};
    ghost use Rattle.fm_lex.specs.Tokens.{Lexed, between, walk};
    ghost use Rattle.fm_lex.specs.Room.{SpotsFit};

    ghost Value = { List Lexed };

    ghost view = { λ l. walk between l.spot l.rest.now };

    ghost invariant = { λ l. SpotsFit l.spot l.rest.now };
}

// What follows the first byte, and its spot.
#[tactic(auto, using(crate::proofs::Gaps::room_after))]
fn past_byte(text: &[u8], from: Spot) -> (&[u8], Spot)
    requires some { 1 ≤ length text.now }
    requires room { SpotsFit from text.now }
    ensures rest { result.0.now ≡ drop 1 text.now }
    ensures spot { result.1 ≡ after_byte (slice_index text.now 0) from }
    ensures room { SpotsFit result.1 result.0.now }
{
    (&text[1..], from.after(text[0]))
}

// What follows a comment, and its spot.
#[tactic(auto, using(crate::proofs::Gaps::gap_steps))]
fn skip_comment(text: &[u8], from: Spot) -> (&[u8], Spot)
    requires { SpotsFit from text.now }
    ensures same { walk comment from text.now ≡ walk between result.1 result.0.now }
    ensures room { SpotsFit result.1 result.0.now }
    ensures shorter { length result.0.now ≤ length text.now }
{
    let mut rest = text;
    let mut spot = from;
    while let [byte, ..] = rest {
        if *byte == b'\n' {
            return (rest, spot);
        }
        (rest, spot) = past_byte(rest, spot);
    }
    (rest, spot)
}

// What follows the blanks and comments at the front, and its spot.
#[tactic(auto, using(crate::proofs::Gaps::gap_steps))]
fn skip_gap(text: &[u8], from: Spot) -> (&[u8], Spot)
    requires { SpotsFit from text.now }
    ensures same { walk between from text.now ≡ walk between result.1 result.0.now }
    ensures begins { BeginsToken result.0.now }
    ensures room { SpotsFit result.1 result.0.now }
{
    let mut rest = text;
    let mut spot = from;
    while let [byte, ..] = rest {
        if *byte == b'#' {
            let (comment, inside) = past_byte(rest, spot);
            (rest, spot) = skip_comment(comment, inside);
        } else if is_blank(*byte) {
            (rest, spot) = past_byte(rest, spot);
        } else {
            return (rest, spot);
        }
    }
    (rest, spot)
}

#[tactic(auto, using(crate::proofs::Steps::run_within))]
fn word_length(text: &[u8]) -> usize
    ensures value { result ≡ prefix_len in_word text.now }
    ensures within { result ≤ length text.now }
{
    text.iter().take_while(|byte| in_word(**byte)).count()
}

#[tactic(auto, using(crate::proofs::Steps::run_within))]
fn digits_length(text: &[u8]) -> usize
    ensures value { result ≡ prefix_len is_digit text.now }
    ensures within { result ≤ length text.now }
{
    text.iter().take_while(|byte| is_digit(**byte)).count()
}

fn begins_word(text: &[u8]) -> bool
    ensures { result ≡ begins_word text.now }
{
    match text {
        [] => false,
        [first, ..] => in_word(*first),
    }
}

#[tactic(auto, using(crate::proofs::Digits::digit_steps))]
fn decimal(digits: &[u8]) -> u32
    requires few { length digits.now ≤ most_digits }
    requires digits { All (λ x. is_digit x ≡ true) digits.now }
    ensures { result ≡ decimal digits.now }
{
    let mut value = 0u32;
    for byte in digits {
        value = 10 * value + u32::from(*byte - b'0');
    }
    value
}

// The number at the front.
#[tactic(auto, using(crate::proofs::Digits::digits_pass))]
fn number_at(text: &[u8], spot: Spot) -> Result<Token, LexFault>
    requires { BeginsDigit text.now }
    ensures value { lexed_of result ≡ lexed_at spot text.now }
    ensures within { IfOk result (λ t. length t.text.now ≤ length text.now) }
{
    let (digits, later) = text.split_at(digits_length(text));
    if digits.len() > MOST_DIGITS || begins_word(later) {
        return Err(LexFault::BadNumber { spot });
    }
    Ok(Token {
        kind: Kind::Number(decimal(digits)),
        text: digits,
        spot,
    })
}

// The token at the front, where no blank and no comment stands there.
fn token_at(text: &[u8], spot: Spot) -> Result<Token, LexFault>
    ensures value { lexed_of result ≡ lexed_at spot text.now }
    ensures within { IfOk result (λ t. length t.text.now ≤ length text.now) }
{
    let [first, ..] = text else {
        return Ok(Token {
            kind: Kind::End,
            text,
            spot,
        });
    };
    if is_letter(*first) {
        let word = &text[..word_length(text)];
        let kind = kind_of(word);
        Ok(Token {
            kind,
            text: word,
            spot,
        })
    } else if is_digit(*first) {
        number_at(text, spot)
    } else if is_symbol(*first) {
        Ok(Token {
            kind: Kind::Symbol(*first),
            text: &text[..1],
            spot,
        })
    } else {
        Err(LexFault::BadByte { spot })
    }
}

// How many bytes were read. A fault takes none, so it is met again.
fn length_of(token: &Result<Token, LexFault>) -> usize
    ensures { result ≡ length (text_of (lexed_of token.now)) }
{
    match token {
        Ok(token) => token.text.len(),
        Err(_) => 0,
    }
}

// What follows the token at the front, which has so many bytes, and its spot.
#[tactic(auto, using(crate::proofs::TokenSteps::behind))]
fn past_token(text: &[u8], from: Spot, size: usize) -> (&[u8], Spot)
    requires begins { BeginsToken text.now }
    requires room { SpotsFit from text.now }
    requires within { size ≤ length text.now }
    requires size { size ≡ length (text_of (lexed_at from text.now)) }
    ensures walk { walk between result.1 result.0.now ≡ advanced (walk between from text.now) }
    ensures room { SpotsFit result.1 result.0.now }
{
    let to = Spot {
        line: from.line,
        column: from.column + size as u32,
    };
    (&text[size..], to)
}

impl<'s> Lexer<'s> {
    /// Reads a text from its start.
    pub fn new(source: &'s [u8]) -> Lexer<'s>
        requires { length source.now ≤ MAX_TEXT }
        ensures { result ≡ tokens source.now }
    {
        Lexer {
            rest: source,
            spot: START,
        }
    }

    /// The next token. After the end it is the end again, and after a fault the same fault.
    pub fn next(&mut self) -> Result<Token<'s>, LexFault>
        ensures gives { self.old ≡ lexed_of result ∷ drop 1 self.old }
        ensures moves { self.new ≡ advanced self.old }
    {
        let (rest, spot) = skip_gap(self.rest, self.spot);
        let token = token_at(rest, spot);
        (self.rest, self.spot) = past_token(rest, spot, length_of(&token));
        token
    }
}
