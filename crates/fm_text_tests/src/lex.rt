//! One line of tokens, and three faults.

use crate::same::same;
use fm_lex::{Keyword, Kind, Lexer, MAX_TEXT, Spot, tokens_stand};
use std::alloc::{AllocError, Global};
use std::process::Abort;

/// The tokens of a line, with their columns.
const TOKENS: &[(Kind, &str, u32)] = &[
    (Kind::Name, "a_1", 1),
    (Kind::Name, "r8", 5),
    (Kind::Name, "n16", 8),
    (Kind::Pitch(58), "bb3", 12),
    (Kind::Name, "c10", 16),
    (Kind::End, "", 19),
    (Kind::End, "", 19),
];

/// Texts with a fault, how many tokens stand before it, and what it says.
const FAULTS: &[(&str, usize, &str)] = &[
    (
        "12x",
        0,
        "1:1: a number has at most nine digits, and no letter behind them",
    ),
    (
        "1234567890",
        0,
        "1:1: a number has at most nine digits, and no letter behind them",
    ),
    (
        "formula 1;\n Note",
        3,
        "2:2: no token begins with this byte",
    ),
];

/// The kinds of the tokens of another line.
const KINDS: &[Kind] = &[Kind::Keyword(Keyword::Note), Kind::Pitch(58), Kind::End];

// Whether the next call gives this token of the first line.
fn is_token(lexer: &mut Lexer, kind: Kind, text: &str, column: u32) -> bool {
    let spot = Spot { line: 1, column };
    match lexer.next() {
        Ok(token) => token.kind == kind && token.text == text.as_bytes() && token.spot == spot,
        Err(_) => false,
    }
}

#[test]
fn gives_the_tokens_of_a_line(rt: HostRuntime) {
    let mut lexer = Lexer::new(b"a_1 r8 n16 bb3 c10");
    for (kind, text, column) in TOKENS {
        assert!(rt; is_token(&mut lexer, *kind, text, *column));
    }
}

// What the next call says: the words of its fault, or none.
fn said(alloc: Global, lexer: &mut Lexer) -> Result<String, AllocError> {
    match lexer.next() {
        Ok(_) => Ok(String::new(alloc)),
        Err(fault) => format!(in alloc; "{fault}"),
    }
}

// Behind so many tokens a text gives its fault, and gives it again.
fn has_fault<R: Abort + AllocGlobal>(
    rt: &R,
    text: &str,
    before: usize,
    fault: &str,
) -> Result<(), AllocError> {
    assert!(rt; text.len() <= MAX_TEXT);
    let mut lexer = Lexer::new(text.as_bytes());
    for _ in 0..before {
        assert!(rt; lexer.next().is_ok());
    }
    for _ in 0..2 {
        same(rt, &said(rt.alloc(), &mut lexer)?.as_str(), &fault);
    }
    Ok(())
}

#[test]
fn gives_a_fault_again(rt: HostRuntime) -> Result<(), AllocError> {
    for (text, before, fault) in FAULTS {
        has_fault(&rt, text, *before, fault)?;
    }
    Ok(())
}

// Whether the next call gives a token of this kind.
fn is_next(lexer: &mut Lexer, kind: Kind) -> bool {
    match lexer.next() {
        Ok(token) => token.kind == kind,
        Err(_) => false,
    }
}

#[test]
fn reads_a_pitch_behind_a_keyword(rt: HostRuntime) {
    let mut lexer = Lexer::new(b"note bb3");
    for kind in KINDS {
        assert!(rt; is_next(&mut lexer, *kind));
    }
    assert!(rt; Keyword::from_text(Keyword::Loud.text()) == Some(Keyword::Loud));
    tokens_stand(b"note bb3");
}
