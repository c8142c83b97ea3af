//! Texts that become files, and texts that are refused.

use super::scores::SCORES;
use super::{
    FILES, NOTE, QUARTER, SOUND, THREE_BRANCHES, THREE_TRACK, check_left, file_with, repeated,
    run_on,
};
use std::alloc::{AllocError, Global};
use std::fmt::Write;
use std::process::Abort;
use std::sync::Wait;
use std::test::Fail;
use std::thread::Threads;

/// Words, a text that is played, and its track behind the tempo.
pub type Piece = (&'static str, &'static [u8], &'static [u8]);

/// Pieces with the bytes that are worked out for them.
const PLAYED: &[Piece] = &[
    // an empty piece
    (FILES, b"formula 1;", &[0, 0xFF, 0x2F, 0]),
    // a quarter note: a program that always answers want of memory is refused here
    (FILES, NOTE, QUARTER),
    // a note of no length
    (
        FILES,
        b"formula 1; note c4 ticks 0;",
        &[0, 0x90, 0x3C, 0x40, 0, 0x80, 0x3C, 0x40, 0, 0xFF, 0x2F, 0],
    ),
    // each level rounds by itself
    (
        FILES,
        b"formula 1; shape s = flat ticks 1000 by 333; warp s { warp s { rest ticks 10; \
         note c4 ticks 0; } }",
        &[0, 0x90, 0x3C, 0x40, 0, 0x80, 0x3C, 0x40, 0, 0xFF, 0x2F, 0],
    ),
    // a breath delays no note that ends there
    (
        FILES,
        b"formula 1; shape w = flat 1/4 by 1000, breath ticks 120; gate 100 { warp w { \
         note c4 1/4; note d4 1/4; } }",
        &[
            0, 0x90, 0x3C, 0x40, 0x83, 0x60, 0x80, 0x3C, 0x40, 0x78, 0x90, 0x3E, 0x40, 0x83, 0x60,
            0x80, 0x3E, 0x40, 0, 0xFF, 0x2F, 0,
        ],
    ),
    // a pause delays it
    (
        FILES,
        b"formula 1; shape w = flat 1/4 by 1000, pause ticks 120; gate 100 { warp w { \
         note c4 1/4; note d4 1/4; } }",
        &[
            0, 0x90, 0x3C, 0x40, 0x84, 0x58, 0x80, 0x3C, 0x40, 0, 0x90, 0x3E, 0x40, 0x83, 0x60,
            0x80, 0x3E, 0x40, 0, 0xFF, 0x2F, 0,
        ],
    ),
    // a note-off is never before its note-on
    (
        FILES,
        b"formula 1; shape b = breath ticks 120; shape f = flat 1/1 by 500; gate 100 { warp b { \
         warp f { note c4 ticks 1; } } }",
        &[
            0x78, 0x90, 0x3C, 0x40, 0, 0x80, 0x3C, 0x40, 0, 0xFF, 0x2F, 0,
        ],
    ),
    // three branches
    (FILES, THREE_BRANCHES, THREE_TRACK),
    // what follows starts at the greatest end
    (
        FILES,
        b"formula 1; par { branch { note c4 1/2; } branch { note e4 1/4; } branch { } } \
         note g4 1/4;",
        &[
            0, 0x90, 0x3C, 0x40, 0, 0x90, 0x40, 0x40, 0x83, 0x30, 0x80, 0x40, 0x40, 0x83, 0x30,
            0x80, 0x3C, 0x40, 0x60, 0x90, 0x43, 0x40, 0x83, 0x30, 0x80, 0x43, 0x40, 0x30, 0xFF,
            0x2F, 0,
        ],
    ),
    // rests longer than a quantity
    (
        FILES,
        b"formula 1; repeat 300 { rest ticks 1000000; } note c4 1/4;",
        &[
            0xFF, 0xFF, 0xFF, 0x7F, 0xFF, 1, 0, 0x8F, 0x86, 0xC6, 1, 0x90, 0x3C, 0x40, 0x83, 0x30,
            0x80, 0x3C, 0x40, 0x30, 0xFF, 0x2F, 0,
        ],
    ),
    // a chord of sixteen pitches, of which one waits at a time
    (
        "a.txt b.mid --room 1 --lead 0",
        b"formula 1; note c3, d3, e3, f3, g3, a3, b3, c4, d4, e4, f4, g4, a4, b4, c5, d5 1/4;",
        &[
            0, 0x90, 0x30, 0x40, 0, 0x90, 0x32, 0x40, 0, 0x90, 0x34, 0x40, 0, 0x90, 0x35, 0x40, 0,
            0x90, 0x37, 0x40, 0, 0x90, 0x39, 0x40, 0, 0x90, 0x3B, 0x40, 0, 0x90, 0x3C, 0x40, 0,
            0x90, 0x3E, 0x40, 0, 0x90, 0x40, 0x40, 0, 0x90, 0x41, 0x40, 0, 0x90, 0x43, 0x40, 0,
            0x90, 0x45, 0x40, 0, 0x90, 0x47, 0x40, 0, 0x90, 0x48, 0x40, 0, 0x90, 0x4A, 0x40, 0x83,
            0x30, 0x80, 0x30, 0x40, 0, 0x80, 0x32, 0x40, 0, 0x80, 0x34, 0x40, 0, 0x80, 0x35, 0x40,
            0, 0x80, 0x37, 0x40, 0, 0x80, 0x39, 0x40, 0, 0x80, 0x3B, 0x40, 0, 0x80, 0x3C, 0x40, 0,
            0x80, 0x3E, 0x40, 0, 0x80, 0x40, 0x40, 0, 0x80, 0x41, 0x40, 0, 0x80, 0x43, 0x40, 0,
            0x80, 0x45, 0x40, 0, 0x80, 0x47, 0x40, 0, 0x80, 0x48, 0x40, 0, 0x80, 0x4A, 0x40, 0x30,
            0xFF, 0x2F, 0,
        ],
    ),
    // version 2: a status byte that the event before has is left out
    (
        FILES,
        b"formula 2; note c4, e4 1/4;",
        &[
            0, 0x90, 0x3C, 0x40, 0, 0x40, 0x40, 0x83, 0x30, 0x80, 0x3C, 0x40, 0, 0x40, 0x40, 0x30,
            0xFF, 0x2F, 0,
        ],
    ),
    // but not behind a filler
    (
        FILES,
        b"formula 2; control 7 1; repeat 300 { rest ticks 1000000; } control 7 2;",
        &[
            0, 0xB0, 7, 1, 0xFF, 0xFF, 0xFF, 0x7F, 0xFF, 1, 0, 0x8F, 0x86, 0xC6, 1, 0xB0, 7, 2, 0,
            0xFF, 0x2F, 0,
        ],
    ),
    // controls and bends
    (
        FILES,
        b"formula 1; program 5; control 7 100; bend -8192; bend 0;",
        &[
            0, 0xC0, 5, 0, 0xB0, 7, 0x64, 0, 0xE0, 0, 0, 0, 0xE0, 0, 0x40, 0, 0xFF, 0x2F, 0,
        ],
    ),
    // a rhythm, gates and volumes
    (
        FILES,
        b"formula 1; rhythm [1/4, 1/8] { artic [50, 100] { loud [100, 50] { play c4; play d4; \
         play e4; } } }",
        &[
            0, 0x90, 0x3C, 0x64, 0x81, 0x70, 0x80, 0x3C, 0x40, 0x81, 0x70, 0x90, 0x3E, 0x32, 0x81,
            0x70, 0x80, 0x3E, 0x40, 0, 0x90, 0x40, 0x64, 0x81, 0x70, 0x80, 0x40, 0x40, 0x81, 0x70,
            0xFF, 0x2F, 0,
        ],
    ),
    // the first draw of seed 0
    (
        FILES,
        b"formula 1; note key (60 + pick(12)) 1/4;",
        &[
            0, 0x90, 0x47, 0x40, 0x83, 0x30, 0x80, 0x47, 0x40, 0x30, 0xFF, 0x2F, 0,
        ],
    ),
];

/// Texts that are refused, with the place and the number of their fault.
const REFUSED: &[(&str, &str)] = &[
    ("formula 1; Note", "1:12 fault 1"),
    ("formula 1x;", "1:9 fault 2"),
    ("formula 1; note c4,", "1:20 fault 3"),
    ("", "1:1 fault 3"),
    ("formula 1; note c4 1/4; }", "1:25 fault 3"),
    (
        "formula 1; shape a = pause ticks 1; phrase a { }",
        "1:44 fault 5",
    ),
    ("formula 1; do x;", "1:15 fault 6"),
    // faults of two groups, of which the earlier group's stands later
    ("formula 1; skip; do x; A", "1:24 fault 1"),
    ("formula 1; skip; do x;", "1:21 fault 6"),
    (
        "formula 1; repeat 1000000 { note c4, d4, e4 ticks 0; } skip;",
        "1:56 fault 10",
    ),
    ("formula 3;", "1:9 fault 7"),
    ("formula 1; note c4 1/7;", "1:20 fault 8"),
    (
        "formula 1; repeat (pick(4)) max 4 { par { branch { } } }",
        "1:37 fault 9",
    ),
    ("formula 1; play c4;", "1:12 fault 10"),
    ("formula 1; rest ticks (n0) max 5;", "1:12 fault 11"),
    (
        "formula 1; repeat 2048 { par { branch { } } }",
        "1:12 fault 13",
    ),
    (
        "formula 2; repeat 8192 { par { branch { } } }",
        "1:12 fault 13",
    ),
    (
        "formula 1; repeat 1000000 { repeat 1000000 { repeat 0 { par { branch { } } } } }",
        "1:12 fault 14",
    ),
    (
        "formula 1; repeat 1000000 { rest ticks 1000000; } repeat 99511 { rest ticks 1000000; } \
         rest ticks 627777;",
        "1:88 fault 15",
    ),
    (
        "formula 1; repeat 1000000 { note c4, d4, e4 ticks 0; }",
        "1:12 fault 16",
    ),
    (
        "formula 1; repeat 1000000 { repeat 16 { } }",
        "1:12 fault 17",
    ),
];

/// Two ends, a part that stands so many times between them, and the place and the number of the
/// fault.
type Long = (
    (&'static str, &'static str),
    &'static str,
    u64,
    &'static str,
);

/// Long texts that are refused.
const LONG: &[Long] = &[
    (("formula 1; ", ""), "if 1 {", 65, "1:396 fault 4"),
    (("formula 1; set r0 = ", "1;"), "-", 64, "1:84 fault 4"),
    (("", "x"), "\n", 41_000, "41001:1 fault 3"),
    // the greatest length of a text, and a byte more, which is refused before it is judged
    (("", ""), " ", 1_048_576, "1:1048577 fault 3"),
    (("", ""), " ", 1_048_577, "1:1 fault 18"),
    (
        ("formula 1; ", "}}}}}}}}}}}}}}}}}"),
        "repeat 1 {",
        17,
        "1:172 fault 12",
    ),
];

// So many phrases, each of which plays the one before it twice, and the last of them.
fn doubled_phrases(alloc: Global, count: u32) -> Result<String, AllocError> {
    let mut text = String::from_str(alloc, "formula 1; phrase q0 { }")?;
    for before in 0..count {
        let k = before + 1;
        write!(text, " phrase q{k} {{ do q{before}; do q{before}; }}")?;
    }
    write!(text, " do q{count};")?;
    Ok(text)
}

// Compares what a run leaves with a file, and nothing that is told.
fn check_file<R: Threads + Wait + Sync + Abort>(
    rt: &R,
    alloc: Global,
    (words, text, track): &Piece,
) -> Result<(), AllocError> {
    let ran = run_on(rt, alloc, words, text, SOUND)?;
    let file = file_with(alloc, track, 4)?;
    check_left(rt, &ran, (0, b"", file.as_slice()), words);
    Ok(())
}

// Compares what a run leaves with the line of a refused text.
fn check_refusal<R: Threads + Wait + Sync + Abort>(
    rt: &R,
    alloc: Global,
    text: &str,
    place: &str,
) -> Result<(), AllocError> {
    let said = format!(in alloc; "formula: score refused: {place}\n")?;
    let ran = run_on(rt, alloc, FILES, text.as_bytes(), SOUND)?;
    check_left(rt, &ran, (3, said.as_bytes(), b""), place);
    Ok(())
}

#[test]
fn texts_become_files(rt: HostRuntime) -> Result<(), Fail> {
    let alloc = rt.alloc();
    for pieces in [PLAYED, SCORES] {
        for piece in pieces {
            check_file(&rt, alloc, piece)?;
        }
    }
    Ok(())
}

#[test]
fn texts_are_refused(rt: HostRuntime) -> Result<(), Fail> {
    let alloc = rt.alloc();
    for (text, place) in REFUSED {
        check_refusal(&rt, alloc, text, place)?;
    }
    Ok(())
}

// Compares what a run on a long text leaves with its refusal.
fn check_long<R: Threads + Wait + Sync + Abort>(
    rt: &R,
    alloc: Global,
    (ends, part, times, place): &Long,
) -> Result<(), AllocError> {
    let text = repeated(alloc, *ends, part, *times)?;
    check_refusal(rt, alloc, text.as_str(), place)
}

#[test]
fn long_texts_are_refused(rt: HostRuntime) -> Result<(), Fail> {
    let alloc = rt.alloc();
    for row in LONG {
        check_long(&rt, alloc, row)?;
    }
    let phrases = doubled_phrases(alloc, 40)?;
    check_refusal(&rt, alloc, phrases.as_str(), "1:1237 fault 14")?;
    Ok(())
}
