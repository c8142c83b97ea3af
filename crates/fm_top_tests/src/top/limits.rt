//! Texts with more of something than two bytes, or one, could count.

use super::{FILES, SOUND, check_left, file_with, repeated, run_on};
use std::alloc::{AllocError, Global};
use std::fmt::Write;
use std::process::Abort;
use std::sync::Wait;
use std::test::Fail;
use std::thread::Threads;

/// Two ends, a part that stands so many times between them, and the track behind the tempo.
type Large = (
    (&'static str, &'static str),
    &'static str,
    u64,
    &'static [u8],
);

/// Texts that are planned and played.
const LARGE: &[Large] = &[
    // 65,537 computed values, of which the last is sent
    (
        ("formula 1; ", "set r0 = 5; program (r0);"),
        "set r0 = 1;",
        65_535,
        &[0, 0xC0, 5, 0, 0xFF, 0x2F, 0],
    ),
    // 65,536 operations, and a loop behind them
    (
        ("formula 1; ", "repeat 3 { note c4 ticks 10; }"),
        "rest ticks 0;",
        65_536,
        &[
            0, 0x90, 0x3C, 0x40, 9, 0x80, 0x3C, 0x40, 1, 0x90, 0x3C, 0x40, 9, 0x80, 0x3C, 0x40, 1,
            0x90, 0x3C, 0x40, 9, 0x80, 0x3C, 0x40, 1, 0xFF, 0x2F, 0,
        ],
    ),
];

/// What three of 300 phrases send, each of which has the third of its number.
const OF_PHRASES: &[u8] = &[0, 0xC0, 85, 0, 0xC0, 14, 0, 0xC0, 99, 0, 0xFF, 0x2F, 0];

// So many phrases with a program change each, and three of them brought in.
fn many_phrases(alloc: Global, count: u32) -> Result<String, AllocError> {
    let mut text = String::from_str(alloc, "formula 1;")?;
    for k in 0..count {
        write!(text, " phrase p{k} {{ program {}; }}", k / 3)?;
    }
    text.push_str(" do p256; do p43; do p299;")?;
    Ok(text)
}

// Compares what a text leaves with a file of this track, and nothing that is told.
fn check_played<R: Threads + Wait + Sync + Abort>(
    rt: &R,
    alloc: Global,
    text: &str,
    track: &[u8],
    row: &str,
) -> Result<(), AllocError> {
    let ran = run_on(rt, alloc, FILES, text.as_bytes(), SOUND)?;
    let file = file_with(alloc, track, 4)?;
    check_left(rt, &ran, (0, b"", file.as_slice()), row);
    Ok(())
}

// The same of a text of a part that stands many times.
fn check_large<R: Threads + Wait + Sync + Abort>(
    rt: &R,
    alloc: Global,
    (ends, part, times, track): &Large,
) -> Result<(), AllocError> {
    let text = repeated(alloc, *ends, part, *times)?;
    check_played(rt, alloc, text.as_str(), track, part)
}

#[test]
fn large_numbers_of_things_are_played(rt: HostRuntime) -> Result<(), Fail> {
    let alloc = rt.alloc();
    for row in LARGE {
        check_large(&rt, alloc, row)?;
    }
    let phrases = many_phrases(alloc, 300)?;
    check_played(&rt, alloc, phrases.as_str(), OF_PHRASES, "300 phrases")?;
    Ok(())
}
