//! Files and their listings, worked out by hand, a sink that fails, and one caller.
ghost use Rattle.std.specs.Prelude.{◌≤◌, length};

use crate::memory::memory_of;
use crate::same::{same, same_bytes};
use fm_edge::Append;
use fm_listing::list;
use fm_read::{MAX_FILE, read};
use std::alloc::AllocError;
use std::process::Abort;

/// A quarter note that sounds for 90 hundredths of it.
const NOTE: [u8; 42] = [
    0x4D, 0x54, 0x68, 0x64, 0, 0, 0, 6, 0, 0, 0, 1, 1, 0xE0, 0x4D, 0x54, 0x72, 0x6B, 0, 0, 0, 0x14,
    0, 0xFF, 0x51, 3, 7, 0xA1, 0x20, 0, 0x90, 0x3C, 0x40, 0x83, 0x30, 0x80, 0x3C, 0x40, 0x30, 0xFF,
    0x2F, 0,
];

/// Its listing.
const NOTE_LISTING: &str = "\
format 0 tracks 1 division 480
0 0 FF 51 03 07 A1 20
0 0 90 3C 40
0 432 80 3C 40
0 480 FF 2F 00
";

/// Two tracks where seven are stated, with a chunk of another kind between. The second one has
/// running status, a filler and a sysex event.
const OTHERS: [u8; 67] = [
    0x4D, 0x54, 0x68, 0x64, 0, 0, 0, 6, 0, 1, 0, 7, 0, 0x60, 0x4D, 0x54, 0x72, 0x6B, 0, 0, 0, 4, 0,
    0xFF, 0x2F, 0, 0x58, 0x46, 0x49, 0x48, 0, 0, 0, 2, 1, 2, 0x4D, 0x54, 0x72, 0x6B, 0, 0, 0, 0x17,
    0, 0x90, 0x3C, 0x40, 5, 0x3E, 0x40, 0xFF, 0xFF, 0xFF, 0x7F, 0xFF, 1, 0, 1, 0xF0, 2, 0x11, 0xF7,
    0, 0xFF, 0x2F, 0,
];

/// Their listing.
const OTHERS_LISTING: &str = "\
format 1 tracks 2 division 96
0 0 FF 2F 00
1 0 90 3C 40
1 5 90 3E 40
1 268435460 FF 01 00
1 268435461 F0 02 11 F7
1 268435461 FF 2F 00
";

// One caller: the listing of bytes that are a file.
fn list_bytes<K: Append>(bytes: &[u8], sink: &mut K) -> bool
    requires { length bytes.now ≤ MAX_FILE }
{
    match read(bytes) {
        Ok(file) => list(&file, sink).is_ok(),
        Err(_) => false,
    }
}

// Bytes are listed or are not, to a sink of which these calls fail, and leave this.
fn has_listing<R: Abort + AllocGlobal>(
    rt: &R,
    bytes: &[u8],
    failing: &[(u64, u32)],
    listed: bool,
    left: &[u8],
) -> Result<(), AllocError>
    requires { length bytes.now ≤ MAX_FILE }
{
    let mut sink = memory_of(rt.alloc(), 500, failing)?;
    let answer = list_bytes(bytes, &mut sink);
    same(rt, &answer, &listed);
    same_bytes(rt, sink.content(), left);
    Ok(())
}

#[test]
fn tracks_are_listed_with_whole_events(rt: HostRuntime) -> Result<(), AllocError> {
    has_listing(&rt, &OTHERS, &[], true, OTHERS_LISTING.as_bytes())
}

// The whole listing is less than a piece, so there is one put, and no call behind it.
#[test]
fn a_listing_is_put_at_once(rt: HostRuntime) -> Result<(), AllocError> {
    has_listing(&rt, &NOTE, &[(2, 0)], true, NOTE_LISTING.as_bytes())
}

#[test]
fn a_sink_that_fails_has_a_front(rt: HostRuntime) -> Result<(), AllocError> {
    let front = &NOTE_LISTING.as_bytes()[..40];
    has_listing(&rt, &NOTE, &[(1, 40)], false, front)
}
