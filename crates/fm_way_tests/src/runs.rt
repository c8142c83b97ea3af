//! Runs of the whole command in memory, and what each leaves.

use fm_edge::{Gate, MemorySink, SureSource};
use fm_top::formula;
use std::alloc::{AllocError, Global};
use std::process::Abort;
use std::sync::Wait;
use std::thread::Threads;

/// The header with length 0, and the tempo.
const BEGUN: &[u8] = &[
    0x4D, 0x54, 0x68, 0x64, 0, 0, 0, 6, 0, 0, 0, 1, 1, 0xE0, 0x4D, 0x54, 0x72, 0x6B, 0, 0, 0, 0, 0,
    0xFF, 0x51, 3, 7, 0xA1, 0x20,
];

/// A quarter note.
pub const NOTE: &[u8] = b"formula 1; note c4 1/4;";

/// Three branches, and their track behind the tempo.
pub const THREE_BRANCHES: &[u8] =
    b"formula 1; par { branch { note c4 1/4; } branch { note e4 1/8; } \
    branch { note g4 1/2; } }";

pub const THREE_TRACK: &[u8] = &[
    0, 0x90, 0x3C, 0x40, 0, 0x90, 0x40, 0x40, 0, 0x90, 0x43, 0x40, 0x81, 0x58, 0x80, 0x40, 0x40,
    0x81, 0x58, 0x80, 0x3C, 0x40, 0x83, 0x30, 0x80, 0x43, 0x40, 0x60, 0xFF, 0x2F, 0,
];

/// More bytes than any file of these tests has.
pub const CAPACITY: usize = 130_000;

/// The words of a run without options.
pub const FILES: &str = "a.txt b.mid";

/// Calls of the sink that fail, and after how many bytes.
pub type Failing<'a> = &'a [(u64, u32)];

// The words of a line.
fn words_of(alloc: Global, line: &str) -> Result<Vec<String>, AllocError> {
    let mut words = Vec::new(alloc);
    for word in line.split(' ') {
        if !word.is_empty() {
            words.push(String::from_str(alloc, word)?)?;
        }
    }
    Ok(words)
}

/// The file with these bytes behind the tempo.
pub fn file_with(alloc: Global, tail: &[u8]) -> Result<Vec<u8>, AllocError> {
    let mut file = BEGUN.to_vec(alloc)?;
    file.extend_from_slice(tail)?;
    let length = (tail.len() as u64).saturating_add(7).to_be_bytes();
    for place in 0..4 {
        if let Some(byte) = file.get_mut(18 + place) {
            *byte = length[4 + place];
        }
    }
    Ok(file)
}

/// What a run leaves.
#[derive(Drop)]
pub struct Ran {
    pub status: u8,
    pub sink: MemorySink,
    pub console: MemorySink,
}

/// A run on a line of words and a text, where these calls of the sink fail and threads pass this
/// gate.
pub fn run_at<R: Threads + Wait + Sync, G: Gate + Sync>(
    rt: &R,
    alloc: Global,
    words: &str,
    text: &[u8],
    failing: Failing<'_>,
    gate: &G,
) -> Result<Ran, AllocError> {
    let words = words_of(alloc, words)?;
    let mut source = SureSource::new(text.to_vec(alloc)?);
    let mut sink = MemorySink::new(alloc, CAPACITY, failing.to_vec(alloc)?)?;
    let mut console = MemorySink::new(alloc, CAPACITY, Vec::new(alloc))?;
    let status = formula(
        rt,
        alloc,
        &words,
        &mut source,
        &mut sink,
        &mut console,
        gate,
    );
    Ok(Ran {
        status,
        sink,
        console,
    })
}

/// The bytes as digits to the base 31, modulo 2^32.
pub fn sum_of(bytes: &[u8]) -> u32 {
    let mut sum = 0u32;
    for byte in bytes {
        sum = sum.wrapping_mul(31).wrapping_add(u32::from(*byte));
    }
    sum
}
