//! Runs of each task, whole and with calls that fail, and what each leaves.

use super::damaged::RECORD;
use super::scores::STARTS;
use super::tasks::{TASKS, UNREAD};
use super::{FILES, Faults, NOTE, QUARTER, SOUND, check_left, file_with, run_on};
use std::alloc::{AllocError, Global};
use std::process::Abort;
use std::sync::Wait;
use std::test::Fail;
use std::thread::Threads;

/// What a sink holds.
#[derive(Clone, Copy)]
pub enum Left {
    /// These bytes.
    Bytes(&'static [u8]),
    /// So many of these bytes.
    Front(&'static [u8], usize),
    /// A file with this track behind the tempo.
    File(&'static [u8]),
    /// The same with length 0.
    Begun(&'static [u8]),
    /// So many bytes, which are not compared.
    Length(usize),
}

/// Words, what is read, the calls that fail, the status, what the console is told, and what the
/// sink holds.
pub type Row = (
    &'static str,
    &'static [u8],
    Faults<'static>,
    u8,
    &'static str,
    Left,
);

pub const UNTOUCHED: Left = Left::Bytes(&[]);

pub const READ: &str = "formula: read fault\n";

pub const WRITE: &str = "formula: write fault\n";

pub const SKIP: &[u8] = b"formula 1; skip;";

pub const SKIP_REFUSED: &str = "formula: score refused: 1:12 fault 10\n";

/// The totals of the large score 0, which another program has counted.
const TOTALS: &str = "processes 18 events 32000 last 121800 bytes 128033\n";

/// The file of an empty piece behind the tempo.
const NOTHING: &[u8] = &[0, 0xFF, 0x2F, 0];

/// What is put of a record before its steps.
const RECORDED: &[u8] = b"FMR1\x02\x01\0\0\0\0\0\0\0\x17formula 1; note c4 1/4;";

const WORDS: &str = "formula: words refused\n";

pub const NO_PROCESS: &str = "formula: no such process\n";

/// Runs that play.
const PLAYED: &[Row] = &[
    // no name, one and three, and a number out of its range
    ("", NOTE, SOUND, 1, WORDS, UNTOUCHED),
    ("a.txt", NOTE, SOUND, 1, WORDS, UNTOUCHED),
    ("a.txt b.mid c", NOTE, SOUND, 1, WORDS, UNTOUCHED),
    ("a.txt b.mid --room 65", NOTE, SOUND, 1, WORDS, UNTOUCHED),
    // a read that fails
    (FILES, NOTE, (&[1], &[], &[]), 2, READ, UNTOUCHED),
    (FILES, NOTE, (&[2], &[], &[]), 2, READ, UNTOUCHED),
    (FILES, b"", (&[1], &[], &[]), 2, READ, UNTOUCHED),
    // the first read gives the text, the second its end, and no third one comes
    (FILES, NOTE, (&[3], &[], &[]), 0, "", Left::File(QUARTER)),
    // a console that fails: beside a file, a file that breaks off, and a refusal
    (
        FILES,
        NOTE,
        (&[], &[], &[(1, 0)]),
        0,
        "",
        Left::File(QUARTER),
    ),
    (
        FILES,
        NOTE,
        (&[], &[(2, 2)], &[(1, 0)]),
        5,
        "",
        Left::Begun(&[0, 0x90]),
    ),
    (FILES, SKIP, (&[], &[], &[(1, 0)]), 5, "", UNTOUCHED),
    // a large score: the source would fail, if it were read
    (
        "none b.mid --generate 0 --workers 0",
        b"",
        (&[1], &[], &[]),
        0,
        TOTALS,
        Left::Length(128_033),
    ),
    (
        "none b.mid --generate=0",
        b"",
        (&[1], &[], &[]),
        0,
        TOTALS,
        Left::Length(128_033),
    ),
    (
        "none b.mid --generate 0",
        b"",
        (&[1], &[], &[(1, 9)]),
        5,
        "processes",
        Left::Length(128_033),
    ),
    (
        "none b.mid --generate 0",
        b"",
        (&[1], &[(2, 1)], &[]),
        4,
        WRITE,
        Left::Length(30),
    ),
];

/// Runs that audit, and that record.
const RECORDS: &[Row] = &[
    // a record is audited
    (
        "a.record b.mid --audit",
        RECORD,
        SOUND,
        0,
        "",
        Left::File(NOTHING),
    ),
    (
        "--list a.record b.mid --audit --generate 0 --parts --workers 0 --room 64 --rounds",
        RECORD,
        SOUND,
        0,
        "",
        Left::File(NOTHING),
    ),
    (
        "a.record b.mid --audit",
        RECORD,
        (&[2], &[], &[]),
        2,
        READ,
        UNTOUCHED,
    ),
    (
        "a.record b.mid --audit",
        RECORD,
        (&[], &[(2, 1)], &[]),
        4,
        WRITE,
        Left::Begun(&[0]),
    ),
    // two calls put a record: the head with the text, and the steps
    (
        "a.txt b.record --record --workers 1 --room 1 --lead 0",
        NOTE,
        (&[], &[(1, 7)], &[]),
        4,
        WRITE,
        Left::Front(RECORDED, 7),
    ),
    (
        "a.txt b.record --record --workers 1 --room 1 --lead 0",
        NOTE,
        (&[], &[(2, 0)], &[]),
        4,
        WRITE,
        Left::Bytes(RECORDED),
    ),
    (
        "a.txt b.record --record --workers 1 --room 1 --lead 0",
        SKIP,
        SOUND,
        3,
        SKIP_REFUSED,
        UNTOUCHED,
    ),
];

// The bytes that a sink holds, which has these.
fn expected(alloc: Global, left: Left, found: &[u8]) -> Result<Vec<u8>, AllocError> {
    match left {
        Left::Bytes(bytes) => bytes.to_vec(alloc),
        Left::Front(bytes, count) => bytes.get(..count).unwrap_or(&[]).to_vec(alloc),
        Left::File(track) => file_with(alloc, track, 4),
        Left::Begun(track) => file_with(alloc, track, 0),
        Left::Length(count) => found.get(..count).unwrap_or(&[]).to_vec(alloc),
    }
}

// Compares what a run leaves with its row.
fn check_row<R: Threads + Wait + Sync + Abort>(
    rt: &R,
    alloc: Global,
    (words, text, faults, status, said, left): &Row,
) -> Result<(), AllocError> {
    let ran = run_on(rt, alloc, words, text, *faults)?;
    let sunk = expected(alloc, *left, ran.sink.content())?;
    check_left(rt, &ran, (*status, said.as_bytes(), sunk.as_slice()), words);
    Ok(())
}

#[test]
fn runs_leave_what_was_worked_out(rt: HostRuntime) -> Result<(), Fail> {
    let alloc = rt.alloc();
    for rows in [PLAYED, TASKS, UNREAD, STARTS, RECORDS] {
        for row in rows {
            check_row(&rt, alloc, row)?;
        }
    }
    Ok(())
}
