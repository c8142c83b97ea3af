//! Records and files that are damaged, and records of performances.

use super::{QUARTER_FILE, SOUND, THREE_BRANCHES, THREE_TRACK, check_left, file_with, run_on};
use std::alloc::{AllocError, Global};
use std::process::Abort;
use std::sync::Wait;
use std::test::Fail;
use std::thread::Threads;

/// The record of `formula 1;` by one seat, with room 1 and lead 0: its head, its text, and that the
/// conductor claims the process, records its end and gives it back ended.
pub const RECORD: &[u8] = b"FMR1\x01\x01\0\0\0\0\0\0\0\x0Aformula 1;\
    \x02\0\0\0\x04\0\0\0\x06\0\0\0\0\0\0\0\0\0\0\0\0\x01";

/// The same, and a byte more.
const AND_MORE: &[u8] = b"FMR1\x01\x01\0\0\0\0\0\0\0\x0Aformula 1;\
    \x02\0\0\0\x04\0\0\0\x06\0\0\0\0\0\0\0\0\0\0\0\0\x01\x0A";

/// How many bytes the record has.
const WHOLE: usize = 46;

const AUDIT: &str = "a.record b.mid --audit";

const LIST: &str = "a.mid b.txt --list";

/// Words, bytes, which of them are changed, and three places: those from the first to the second
/// are left out, and those from the third on; and what is said of it.
type Damaged = (
    &'static str,
    &'static [u8],
    &'static [(usize, u8)],
    (usize, usize, usize),
    &'static str,
);

const DAMAGED: &[Damaged] = &[
    (
        AUDIT,
        AND_MORE,
        &[],
        (0, 0, 0),
        "formula: record refused: 0 fault 41\n",
    ),
    (
        AUDIT,
        AND_MORE,
        &[(3, 0x32)],
        (0, 0, WHOLE),
        "formula: record refused: 0 fault 41\n",
    ),
    (
        AUDIT,
        AND_MORE,
        &[(4, 18)],
        (0, 0, WHOLE),
        "formula: record refused: 4 fault 41\n",
    ),
    (
        AUDIT,
        AND_MORE,
        &[(5, 65), (6, 1)],
        (0, 0, WHOLE),
        "formula: record refused: 5 fault 41\n",
    ),
    (
        AUDIT,
        AND_MORE,
        &[(7, 16)],
        (0, 0, WHOLE),
        "formula: record refused: 6 fault 41\n",
    ),
    (
        AUDIT,
        AND_MORE,
        &[],
        (0, 0, 23),
        "formula: record refused: 10 fault 41\n",
    ),
    (
        AUDIT,
        AND_MORE,
        &[(22, 0x33), (24, 0)],
        (0, 0, WHOLE),
        "formula: score refused: 1:9 fault 7\n",
    ),
    (
        AUDIT,
        AND_MORE,
        &[],
        (0, 0, WHOLE + 1),
        "formula: record refused: 22 fault 43\n",
    ),
    (
        AUDIT,
        AND_MORE,
        &[(45, 2)],
        (0, 0, WHOLE),
        "formula: record refused: 8 fault 43\n",
    ),
    (
        AUDIT,
        AND_MORE,
        &[],
        (28, 32, WHOLE),
        "formula: record refused: 1 fault 44\n",
    ),
    (
        AUDIT,
        AND_MORE,
        &[(25, 1)],
        (0, 0, WHOLE + 1),
        "formula: record refused: 0 fault 44\n",
    ),
    (
        AUDIT,
        AND_MORE,
        &[],
        (0, 0, 32),
        "formula: record refused: 2 fault 45\n",
    ),
    (
        AUDIT,
        AND_MORE,
        &[],
        (0, 0, 24),
        "formula: record refused: 0 fault 45\n",
    ),
    (
        LIST,
        QUARTER_FILE,
        &[],
        (0, 0, 41),
        "formula: file refused: byte 41 fault 23\n",
    ),
    (
        LIST,
        QUARTER_FILE,
        &[(21, 0)],
        (0, 0, 22),
        "formula: file refused: byte 22 fault 32\n",
    ),
    (
        LIST,
        QUARTER_FILE,
        &[(9, 2)],
        (0, 0, 42),
        "formula: file refused: byte 8 fault 25\n",
    ),
    (
        LIST,
        QUARTER_FILE,
        &[],
        (0, 0, 0),
        "formula: file refused: byte 0 fault 22\n",
    ),
];

// The bytes with changes, without those from the first place to the second, up to the third.
fn damage(
    alloc: Global,
    bytes: &[u8],
    changes: &[(usize, u8)],
    (from, to, end): (usize, usize, usize),
) -> Result<Vec<u8>, AllocError> {
    let mut all = bytes.to_vec(alloc)?;
    for (index, byte) in changes {
        if let Some(old) = all.get_mut(*index) {
            *old = *byte;
        }
    }
    let mut kept = all.get(..from).unwrap_or(&[]).to_vec(alloc)?;
    kept.extend_from_slice(all.get(to..end).unwrap_or(&[]))?;
    Ok(kept)
}

// Compares what a run on damaged bytes leaves with its row.
fn check_damaged<R: Threads + Wait + Sync + Abort>(
    rt: &R,
    alloc: Global,
    (words, bytes, changes, places, said): &Damaged,
) -> Result<(), AllocError> {
    let input = damage(alloc, bytes, changes, *places)?;
    let ran = run_on(rt, alloc, words, &input, SOUND)?;
    check_left(rt, &ran, (3, said.as_bytes(), b""), said);
    Ok(())
}

#[test]
fn damaged_bytes_are_refused(rt: HostRuntime) -> Result<(), Fail> {
    let alloc = rt.alloc();
    for row in DAMAGED {
        check_damaged(&rt, alloc, row)?;
    }
    Ok(())
}

/// The greatest length of a file that is listed, in bytes.
const LONGEST_FILE: usize = 33_554_432;

/// The greatest length of a record that is audited, in bytes.
const LONGEST_RECORD: usize = 67_108_864;

/// Words, what the input begins with, how many bytes it has, all others 0, and what is said of it.
type Long = (&'static str, &'static [u8], usize, &'static str);

const LONG: &[Long] = &[
    (
        LIST,
        b"",
        LONGEST_FILE,
        "formula: file refused: byte 0 fault 22\n",
    ),
    (
        LIST,
        b"",
        LONGEST_FILE + 1,
        "formula: file refused: byte 0 fault 35\n",
    ),
    (
        AUDIT,
        RECORD,
        LONGEST_RECORD,
        "formula: record refused: 22 fault 43\n",
    ),
    (
        AUDIT,
        RECORD,
        LONGEST_RECORD + 1,
        "formula: record refused: 0 fault 46\n",
    ),
];

fn check_long<R: Threads + Wait + Sync + Abort>(
    rt: &R,
    alloc: Global,
    (words, front, length, said): &Long,
) -> Result<(), AllocError> {
    let mut input = front.to_vec(alloc)?;
    input.resize(*length, 0)?;
    let ran = run_on(rt, alloc, words, &input, SOUND)?;
    check_left(rt, &ran, (3, said.as_bytes(), b""), said);
    Ok(())
}

// What is longer than its limit is refused before any of it is judged, and what just keeps it is
// judged: behind the steps of the record no step begins.
#[test]
fn inputs_of_a_byte_too_many_are_refused(rt: HostRuntime) -> Result<(), Fail> {
    let alloc = rt.alloc();
    for row in LONG {
        check_long(&rt, alloc, row)?;
    }
    Ok(())
}

/// Words, and the head of the record up to the lead.
const WAYS: &[(&str, &[u8; 10])] = &[
    ("a.txt b.record --record", b"FMR1\x05\x20\0\0\x1E\0"),
    (
        "a.txt b.record --record --workers 0 --room 1 --lead 0 --rounds --parts --locate 5",
        b"FMR1\x02\x01\0\0\0\0",
    ),
    (
        "a.txt b.record --record --workers 16 --lead 1000000 --from 5",
        b"FMR1\x11\x20\0\x0F\x42\x40",
    ),
];

// Compares the beginning of a record with a head, and the text of the three branches.
fn check_head<R: Abort>(rt: &R, record: &[u8], head: &[u8; 10]) {
    let text = record.get(14..14 + THREE_BRANCHES.len()).unwrap_or(&[]);
    let found = (record.get(..10).unwrap_or(&[]), text);
    assert_eq!(rt; found, (head.as_slice(), THREE_BRANCHES));
}

// What is put has the head and the text of the run, and an audit accepts it.
fn check_recorded<R: Threads + Wait + Sync + Abort>(
    rt: &R,
    alloc: Global,
    words: &str,
    head: &[u8; 10],
) -> Result<(), AllocError> {
    let ran = run_on(rt, alloc, words, THREE_BRANCHES, SOUND)?;
    assert_eq!(rt;
        (ran.status, ran.console.content()),
        (0, b"".as_slice()),
        "{words}"
    );
    check_head(rt, ran.sink.content(), head);
    let again = run_on(rt, alloc, AUDIT, ran.sink.content(), SOUND)?;
    let file = file_with(alloc, THREE_TRACK, 4)?;
    check_left(rt, &again, (0, b"", file.as_slice()), words);
    Ok(())
}

#[test]
fn a_performance_is_recorded_and_audited(rt: HostRuntime) -> Result<(), Fail> {
    let alloc = rt.alloc();
    for (words, head) in WAYS {
        check_recorded(&rt, alloc, words, head)?;
    }
    Ok(())
}
