//! Files of one track and their parts, byte by byte as the format has them, faults of the sink, and
//! one caller.
ghost use Rattle.std.specs.Prelude.{◌≡◌, ◌≤◌, length, Ok};
ghost use Rattle.fm_read.specs.Files.{Contents, contents};
ghost use Rattle.fm_read.specs.WrittenFile.{IsWritten};

use crate::memory::memory_of;
use crate::same::{same, same_bytes};
use fm_edge::Append;
use fm_parts::split;
use fm_read::{MAX_FILE, read};
use std::alloc::AllocError;
use std::process::Abort;

/// A quarter note on channel 0, and then one on channel 1.
const TWO: [u8; 51] = [
    0x4D, 0x54, 0x68, 0x64, 0, 0, 0, 6, 0, 0, 0, 1, 1, 0xE0, 0x4D, 0x54, 0x72, 0x6B, 0, 0, 0, 0x1D,
    0, 0xFF, 0x51, 3, 7, 0xA1, 0x20, 0, 0x90, 0x3C, 0x40, 0x83, 0x30, 0x80, 0x3C, 0x40, 0x30, 0x91,
    0x40, 0x40, 0x83, 0x30, 0x81, 0x40, 0x40, 0x30, 0xFF, 0x2F, 0,
];

/// Its tempo, its first channel and its second one.
const TWO_PARTS: [u8; 78] = [
    0x4D, 0x54, 0x68, 0x64, 0, 0, 0, 6, 0, 1, 0, 3, 1, 0xE0, 0x4D, 0x54, 0x72, 0x6B, 0, 0, 0, 0x0C,
    0, 0xFF, 0x51, 3, 7, 0xA1, 0x20, 0x87, 0x40, 0xFF, 0x2F, 0, 0x4D, 0x54, 0x72, 0x6B, 0, 0, 0,
    0x0E, 0, 0x90, 0x3C, 0x40, 0x83, 0x30, 0x80, 0x3C, 0x40, 0x84, 0x10, 0xFF, 0x2F, 0, 0x4D, 0x54,
    0x72, 0x6B, 0, 0, 0, 0x0E, 0x83, 0x60, 0x91, 0x40, 0x40, 0x83, 0x30, 0x81, 0x40, 0x40, 0x30,
    0xFF, 0x2F, 0,
];

/// A file with running status: two note-ons on channel 2, and a program on channel 1.
const RUNNING: [u8; 43] = [
    0x4D, 0x54, 0x68, 0x64, 0, 0, 0, 6, 0, 0, 0, 1, 3, 0xC0, 0x4D, 0x54, 0x72, 0x6B, 0, 0, 0, 0x15,
    0, 0xFF, 0x51, 3, 7, 0xA1, 0x20, 0, 0x92, 0x3C, 0x40, 5, 0x3E, 0x40, 2, 0xC1, 9, 3, 0xFF, 0x2F,
    0,
];

/// Its tempo and its channels, each event with its status byte.
const RUNNING_PARTS: [u8; 68] = [
    0x4D, 0x54, 0x68, 0x64, 0, 0, 0, 6, 0, 1, 0, 3, 3, 0xC0, 0x4D, 0x54, 0x72, 0x6B, 0, 0, 0, 0x0B,
    0, 0xFF, 0x51, 3, 7, 0xA1, 0x20, 0x0A, 0xFF, 0x2F, 0, 0x4D, 0x54, 0x72, 0x6B, 0, 0, 0, 7, 7,
    0xC1, 9, 3, 0xFF, 0x2F, 0, 0x4D, 0x54, 0x72, 0x6B, 0, 0, 0, 0x0C, 0, 0x92, 0x3C, 0x40, 5, 0x92,
    0x3E, 0x40, 5, 0xFF, 0x2F, 0,
];

// One caller: the parts of the bytes of a file.
fn parts_of<K: Append>(bytes: &[u8], sink: &mut K) -> Option<u64>
    requires small { length bytes.now ≤ MAX_FILE }
    requires written { (c : Contents) → contents bytes.now ≡ Ok c → IsWritten c }
{
    match read(bytes) {
        Ok(file) => split(&file, sink).ok(),
        Err(_) => None,
    }
}

// The parts of the bytes of a file, put to a sink of which these calls fail, have this length, and
// leave this.
fn has_parts<R: Abort + AllocGlobal>(
    rt: &R,
    bytes: &[u8],
    failing: &[(u64, u32)],
    count: Option<u64>,
    left: &[u8],
) -> Result<(), AllocError>
    requires small { length bytes.now ≤ MAX_FILE }
    requires written { (c : Contents) → contents bytes.now ≡ Ok c → IsWritten c }
{
    let mut sink = memory_of(rt.alloc(), 100, failing)?;
    let answer = parts_of(bytes, &mut sink);
    same(rt, &answer, &count);
    same_bytes(rt, sink.content(), left);
    Ok(())
}

#[test]
fn each_event_gets_its_status_byte(rt: HostRuntime) -> Result<(), AllocError> {
    has_parts(&rt, &RUNNING, &[], Some(68), &RUNNING_PARTS)
}

// All parts are less than a piece, so there is one put, and no call behind it.
#[test]
fn parts_are_put_at_once(rt: HostRuntime) -> Result<(), AllocError> {
    has_parts(&rt, &TWO, &[(2, 0)], Some(78), &TWO_PARTS)
}

#[test]
fn a_sink_that_fails_has_a_front(rt: HostRuntime) -> Result<(), AllocError> {
    has_parts(&rt, &TWO, &[(1, 30)], None, &TWO_PARTS[..30])
}
