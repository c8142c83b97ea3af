//! Runs of the whole command, and what each leaves.
ghost use Rattle.std.specs.Prelude.{◌≡◌, [], IfOk};

mod breaks;
mod damaged;
mod limits;
mod runs;
mod scores;
mod tasks;
mod texts;

use fm_edge::{MemorySink, MemorySource, OpenGate};
use fm_top::formula;
use std::alloc::{AllocError, Global};
use std::process::Abort;
use std::sync::Wait;
use std::test::Fail;
use std::thread::Threads;

/// The header with length 0, and the tempo.
const BEGUN: &[u8] = &[
    0x4D, 0x54, 0x68, 0x64, 0, 0, 0, 6, 0, 0, 0, 1, 1, 0xE0, 0x4D, 0x54, 0x72, 0x6B, 0, 0, 0, 0, 0,
    0xFF, 0x51, 3, 7, 0xA1, 0x20,
];

/// A quarter note, and its track behind the tempo.
const NOTE: &[u8] = b"formula 1; note c4 1/4;";

const QUARTER: &[u8] = &[
    0, 0x90, 0x3C, 0x40, 0x83, 0x30, 0x80, 0x3C, 0x40, 0x30, 0xFF, 0x2F, 0,
];

/// The file of that.
const QUARTER_FILE: &[u8] = &[
    0x4D, 0x54, 0x68, 0x64, 0, 0, 0, 6, 0, 0, 0, 1, 1, 0xE0, 0x4D, 0x54, 0x72, 0x6B, 0, 0, 0, 0x14,
    0, 0xFF, 0x51, 3, 7, 0xA1, 0x20, 0, 0x90, 0x3C, 0x40, 0x83, 0x30, 0x80, 0x3C, 0x40, 0x30, 0xFF,
    0x2F, 0,
];

/// Three branches, and their track behind the tempo.
const THREE_BRANCHES: &[u8] = b"formula 1; par { branch { note c4 1/4; } branch { note e4 1/8; } \
    branch { note g4 1/2; } }";

const THREE_TRACK: &[u8] = &[
    0, 0x90, 0x3C, 0x40, 0, 0x90, 0x40, 0x40, 0, 0x90, 0x43, 0x40, 0x81, 0x58, 0x80, 0x40, 0x40,
    0x81, 0x58, 0x80, 0x3C, 0x40, 0x83, 0x30, 0x80, 0x43, 0x40, 0x60, 0xFF, 0x2F, 0,
];

/// More bytes than any file of these tests has.
const CAPACITY: usize = 130_000;

/// The words of a run without options.
const FILES: &str = "a.txt b.mid";

/// The calls of an object that fail, and after how many bytes.
type Failing = &'static [(u64, u32)];

/// Which reads fail, and which calls of the sink and of the console.
type Faults<'a> = (&'a [u64], &'a [(u64, u32)], &'a [(u64, u32)]);

/// No call fails.
const SOUND: Faults<'static> = (&[], &[], &[]);

// The words of a line.
fn words_of(alloc: Global, line: &str) -> Result<Vec<String>, AllocError> {
    let mut words = Vec::new(alloc);
    for word in line.split(' ') {
        if !word.is_empty() {
            words.push(String::from_str(alloc, word)?)?;
        }
    }
    Ok(words)
}

// The file with these bytes behind the tempo, of which the first `patched` bytes of the length
// are written.
fn file_with(alloc: Global, tail: &[u8], patched: usize) -> Result<Vec<u8>, AllocError> {
    let mut file = BEGUN.to_vec(alloc)?;
    file.extend_from_slice(tail)?;
    let length = (tail.len() as u64).saturating_add(7).to_be_bytes();
    for place in 0..patched.min(4) {
        if let Some(byte) = file.get_mut(18 + place) {
            *byte = length[4 + place];
        }
    }
    Ok(file)
}

// A sink or a console, of which these calls fail.
fn memory_of(alloc: Global, failing: &[(u64, u32)]) -> Result<MemorySink, AllocError>
    ensures { IfOk result (λ s. s.content ≡ []) }
{
    MemorySink::new(alloc, CAPACITY, failing.to_vec(alloc)?)
}

// A source of a text, of which these reads fail.
fn source_of(alloc: Global, text: &[u8], failing: &[u64]) -> Result<MemorySource, AllocError> {
    Ok(MemorySource::new(text.to_vec(alloc)?, 5_000, failing.to_vec(alloc)?))
}

/// What a run leaves.
#[derive(Drop)]
struct Ran {
    status: u8,
    sink: MemorySink,
    console: MemorySink,
}

// A run on a line of words and a text, where these calls fail.
fn run_on<R: Threads + Wait + Sync>(
    rt: &R,
    alloc: Global,
    words: &str,
    text: &[u8],
    faults: Faults<'_>,
) -> Result<Ran, AllocError> {
    let words = words_of(alloc, words)?;
    let mut source = source_of(alloc, text, faults.0)?;
    let mut sink = memory_of(alloc, faults.1)?;
    let mut console = memory_of(alloc, faults.2)?;
    let status = formula(
        rt,
        alloc,
        &words,
        &mut source,
        &mut sink,
        &mut console,
        &OpenGate,
    );
    Ok(Ran {
        status,
        sink,
        console,
    })
}

// Compares what a run leaves with a status, what the console is told and what the sink holds.
fn check_left<R: Abort>(rt: &R, ran: &Ran, wanted: (u8, &[u8], &[u8]), row: &str) {
    let left = (ran.status, ran.console.content(), ran.sink.content());
    assert_eq!(rt; left, wanted, "at {row}");
}

// A text, so many times, between two others.
fn repeated(
    alloc: Global,
    ends: (&str, &str),
    part: &str,
    times: u64,
) -> Result<String, AllocError> {
    let mut text = String::from_str(alloc, ends.0)?;
    for _ in 0..times {
        text.push_str(part)?;
    }
    text.push_str(ends.1)?;
    Ok(text)
}
