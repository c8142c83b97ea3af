//! Texts that are put together, and what they read as.

use fm_grammar::Score;
use fm_lex::MAX_TEXT;
use fm_parse::{ParseFault, parse};
use std::alloc::{AllocError, Global};

/// A text, and how often it stands.
pub type Times = (&'static str, u32);

/// These texts one behind the other, each so many times.
pub fn joined(alloc: Global, parts: &[(&str, u32)]) -> Result<String, AllocError> {
    let mut text = String::new(alloc);
    for (part, times) in parts {
        for _ in 0..*times {
            text.push_str(part)?;
        }
    }
    Ok(text)
}

/// What a text reads as. One that is too long counts as want of memory.
pub fn read(alloc: Global, text: &str) -> Result<Score<'_>, ParseFault> {
    if text.len() > MAX_TEXT {
        return Err(ParseFault::Memory);
    }
    parse(alloc, text.as_bytes())
}
