//! Runs of which a read fails, a call of the sink or of the console after each byte, and runs on
//! each beginning of a text.

use super::{
    FILES, NOTE, QUARTER, Ran, SOUND, THREE_BRANCHES, THREE_TRACK, check_left, file_with,
    memory_of, run_on, words_of,
};
use fm_edge::{MemorySource, OpenGate};
use fm_top::formula;
use std::alloc::{AllocError, Global};
use std::process::Abort;
use std::sync::Wait;
use std::test::Fail;
use std::thread::Threads;

const WORDS: &[u8] = b"formula: words refused\n";

const WRITE: &[u8] = b"formula: write fault\n";

const READ: &[u8] = b"formula: read fault\n";

/// Each way to play.
const WAYS: &[&str] = &[
    "a.txt b.mid --workers 0",
    "a.txt b.mid --rounds",
    "a.txt b.mid",
    "a.txt b.mid --lead 0",
];

/// A way in which processes run beside the conductor, in queues of one event.
const BESIDE: &[&str] = &["a.txt b.mid --workers 4 --lead 0 --room 1"];

/// Ways to play, a text, its track behind the tempo, and the calls of the sink that append: where
/// they begin and how many bytes they have. These are the header, the events and End of Track.
type Broken = (
    &'static [&'static str],
    &'static [u8],
    &'static [u8],
    &'static [(usize, u32)],
);

const BROKEN: &[Broken] = &[
    (WAYS, NOTE, QUARTER, &[(0, 29), (29, 4), (33, 5), (38, 4)]),
    (
        BESIDE,
        THREE_BRANCHES,
        THREE_TRACK,
        &[
            (0, 29),
            (29, 4),
            (33, 4),
            (37, 4),
            (41, 5),
            (46, 5),
            (51, 5),
            (56, 4),
        ],
    ),
];

// Compares what is left of a text, played in these ways, where a call of the sink fails.
fn check_call<R: Threads + Wait + Sync + Abort>(
    rt: &R,
    alloc: Global,
    (ways, text): (&[&str], &[u8]),
    call: (u64, u32),
    file: &[u8],
) -> Result<(), AllocError> {
    for words in ways {
        let ran = run_on(rt, alloc, words, text, (&[], &[call], &[]))?;
        check_left(rt, &ran, (4, WRITE, file), words);
    }
    Ok(())
}

// Compares what is left where one call that appends fails after each byte.
fn check_append<R: Threads + Wait + Sync + Abort>(
    rt: &R,
    alloc: Global,
    (ways, text, track, calls): &Broken,
    index: usize,
) -> Result<(), AllocError> {
    let blank = file_with(alloc, track, 0)?;
    if let Some((begin, length)) = calls.get(index) {
        for count in 0..=*length {
            let front = blank
                .get(..begin.saturating_add(count as usize))
                .unwrap_or(&[]);
            let call = ((index as u64).saturating_add(1), count);
            check_call(rt, alloc, (ways, text), call, front)?;
        }
    }
    Ok(())
}

#[test]
fn each_append_fails_after_each_byte(rt: HostRuntime) -> Result<(), Fail> {
    let alloc = rt.alloc();
    for row in BROKEN {
        for index in 0..row.3.len() {
            check_append(&rt, alloc, row, index)?;
        }
    }
    Ok(())
}

// The length is one call, the last one.
#[test]
fn the_length_fails_after_each_byte(rt: HostRuntime) -> Result<(), Fail> {
    let alloc = rt.alloc();
    for (ways, text, track, calls) in BROKEN {
        let last = (calls.len() as u64).saturating_add(1);
        for count in 0u32..=4 {
            let patched = file_with(alloc, track, count as usize)?;
            check_call(&rt, alloc, (ways, text), (last, count), &patched)?;
        }
    }
    Ok(())
}

// Compares what is left where a call of the console fails, with what it was told.
fn check_told<R: Threads + Wait + Sync + Abort>(
    rt: &R,
    alloc: Global,
    call: (u64, u32),
    status: u8,
    said: &[u8],
) -> Result<(), AllocError> {
    let ran = run_on(rt, alloc, "a.txt", b"", (&[], &[], &[call]))?;
    check_left(rt, &ran, (status, said, b""), "a call of the console");
    Ok(())
}

// The line is one call.
#[test]
fn the_line_fails_after_each_byte(rt: HostRuntime) -> Result<(), Fail> {
    let alloc = rt.alloc();
    for count in 0u32..=23 {
        let front = WORDS.get(..count as usize).unwrap_or(&[]);
        check_told(&rt, alloc, (1, count), 5, front)?;
        check_told(&rt, alloc, (2, count), 1, WORDS)?;
    }
    Ok(())
}

// A run on a quarter note, whose text comes byte by byte, where this read fails.
fn run_by_bytes<R: Threads + Wait + Sync>(
    rt: &R,
    alloc: Global,
    words: &str,
    read: u64,
) -> Result<Ran, AllocError> {
    let words = words_of(alloc, words)?;
    let reads = vec![in alloc; read]?;
    let mut source = MemorySource::new(NOTE.to_vec(alloc)?, 1, reads);
    let mut sink = memory_of(alloc, &[])?;
    let mut console = memory_of(alloc, &[])?;
    let status = formula(
        rt,
        alloc,
        &words,
        &mut source,
        &mut sink,
        &mut console,
        &OpenGate,
    );
    Ok(Ran {
        status,
        sink,
        console,
    })
}

// There are 23 bytes, and the end.
#[test]
fn each_read_fails(rt: HostRuntime) -> Result<(), Fail> {
    let alloc = rt.alloc();
    for read in 1u64..=24 {
        let ran = run_by_bytes(&rt, alloc, FILES, read)?;
        check_left(&rt, &ran, (2, READ, b""), "a read");
    }
    let file = file_with(alloc, QUARTER, 4)?;
    for words in WAYS {
        let ran = run_by_bytes(&rt, alloc, words, 25)?;
        check_left(&rt, &ran, (0, b"", file.as_slice()), words);
    }
    Ok(())
}

/// A text that plays, and the lengths of its other beginnings that do.
const CUT: &[u8] =
    b"formula 1; par { branch { note c4 1/2; } branch { note e4 1/4; } branch { } } note g4 1/4;";

const PLAYING: &[usize] = &[10, 11, 77, 78, 90];

// How a run on a text ended, and whether its line tells of a token that cannot stand.
fn end_of<R: Threads + Wait + Sync>(
    rt: &R,
    alloc: Global,
    text: &[u8],
) -> Result<(u8, bool), AllocError> {
    let ran = run_on(rt, alloc, FILES, text, SOUND)?;
    Ok((ran.status, ran.console.content().ends_with(b" fault 3\n")))
}

#[test]
fn each_beginning_plays_or_is_refused(rt: HostRuntime) -> Result<(), Fail> {
    let alloc = rt.alloc();
    for length in 0..=CUT.len() {
        let text = CUT.get(..length).unwrap_or(&[]);
        let plays = PLAYING.contains(&length);
        let wanted = if plays { (0, false) } else { (3, true) };
        assert_eq!(rt; end_of(&rt, alloc, text)?, wanted, "at {length} bytes");
    }
    Ok(())
}
