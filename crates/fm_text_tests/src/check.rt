//! Texts that are accepted or refused.

mod orders;
mod places;
mod totals;
mod words;

use crate::same::same;
use crate::texts::{Times, joined, read};
use fm_check::{Bounds, CheckFault, check};
use fm_grammar::Score;
use std::alloc::{AllocError, Global};
use std::process::Abort;

/// The number of a fault with its line and column, or zeros.
type Verdict = (u8, u32, u32);

/// A text and its verdict.
type Row = (&'static str, Verdict);

/// The verdict on what does not read as a score, and where there is no memory.
const UNREAD: Verdict = (255, 0, 0);

// The totals of a score, or the number of its fault with its line and column.
fn checked(alloc: Global, score: &Score) -> Result<Bounds, Verdict> {
    match check(alloc, score) {
        Ok(bounds) => Ok(bounds),
        Err(CheckFault::Refused { why, spot }) => Err((why.number(), spot.line, spot.column)),
        Err(CheckFault::Memory) => Err(UNREAD),
    }
}

// The same of a text.
fn judged(alloc: Global, text: &str) -> Result<Bounds, Verdict> {
    match read(alloc, text) {
        Ok(score) => checked(alloc, &score),
        Err(_) => Err(UNREAD),
    }
}

// The number of the fault of a text with its line and column, zeros where it is accepted.
fn verdict(alloc: Global, text: &str) -> Verdict {
    match judged(alloc, text) {
        Ok(_) => (0, 0, 0),
        Err(fault) => fault,
    }
}

// Compares the verdict of a text with this one.
fn check_row<R: Abort + AllocGlobal>(rt: &R, text: &str, want: Verdict) {
    same(rt, &(text, verdict(rt.alloc(), text)), &(text, want));
}

// Compares the verdict of each text with the one that stands beside it.
fn check_rows<R: Abort + AllocGlobal>(rt: &R, rows: &[Row]) {
    for (text, want) in rows {
        check_row(rt, text, *want);
    }
}

// Compares the verdict of a text of these parts with this one.
fn check_joined<R: Abort + AllocGlobal>(
    rt: &R,
    parts: &[Times],
    want: Verdict,
) -> Result<(), AllocError> {
    let text = joined(rt.alloc(), parts)?;
    check_row(rt, &text, want);
    Ok(())
}
