//! What stands in a record before its steps.

ghost use Rattle.std.specs.Prelude.{◌≡◌, ◌+◌, ◌≤◌, ◌++◌, length, Some, None, IfOk, IfErr};
ghost use Rattle.fm_record.specs.Reading.{byte_at};
ghost use Rattle.fm_record.specs.Head.{AreParts, bad_field, has_magic, head_bytes};

use crate::limits::MAX_RECORD;
use crate::read::four_at;
use fm_buffer::MAX_ROOM;
use fm_core::{MAX_LEAD, MAX_SEATS};
use fm_lex::MAX_TEXT;
use thiserror::Error;

/// The parts of a record.
#[derive(Clone, Copy)]
pub struct Reel<'a> {
    /// How many seats took the steps, 1 to 17: the conductor's and one for each worker.
    pub seats: u32,
    /// The room of an outbox, 1 to 64 events.
    pub room: u32,
    /// How far ahead of the floor events were computed, at most 1,000,000 ticks.
    pub lead: u64,
    /// The text of the score, at most 1,048,576 bytes.
    pub text: &'a [u8],
    /// The bytes of the steps.
    pub steps: &'a [u8],
}

/// The first field of a record that is not whole or passes its limits.
#[derive(Clone, Copy, Debug, PartialEq, Eq, Drop, Error)]
#[error("byte {position}: no record of a run begins like this")]
pub struct BadHeader {
    /// The position of its first byte: 0 of the magic bytes, 4 of the seats, 5 of the room, 6 of
    /// the lead, 10 of the text's length.
    pub position: u32,
}

/// The parts of a record of at most 67,108,864 bytes, or its first field that cannot stand.
pub fn header<'a>(bytes: &'a [u8]) -> Result<Reel<'a>, BadHeader>
    requires { length bytes.now ≤ MAX_RECORD }
    ensures limits { IfOk result
        (λ reel. AreParts reel.seats reel.room reel.lead reel.text.now reel.steps.now) }
    ensures parts { IfOk result (λ reel. bytes.now
        ≡ head_bytes reel.seats reel.room reel.lead reel.text.now ++ reel.steps.now) }
    ensures bad { IfErr result (λ fault. bad_field bytes.now ≡ Some fault.position) }
{
    if let Some(position) = bad_field(bytes) {
        return Err(BadHeader { position });
    }
    let end = 14 + four_at(bytes, 10) as usize;
    Ok(Reel {
        seats: u32::from(bytes[4]),
        room: u32::from(bytes[5]),
        lead: u64::from(four_at(bytes, 6)),
        text: &bytes[14..end],
        steps: &bytes[end..],
    })
}

// The position of the first field that cannot stand.
fn bad_field(bytes: &[u8]) -> Option<u32>
    requires { length bytes.now ≤ MAX_RECORD }
    ensures { result ≡ bad_field bytes.now }
{
    if !has_magic(bytes) {
        return Some(0);
    }
    let seats = u32::from(byte_at(bytes, 4));
    if seats == 0 || MAX_SEATS < seats {
        return Some(4);
    }
    let room = u32::from(byte_at(bytes, 5));
    if room == 0 || MAX_ROOM < room {
        return Some(5);
    }
    if bytes.len() < 10 || MAX_LEAD < u64::from(four_at(bytes, 6)) {
        return Some(6);
    }
    if bytes.len() < 14 {
        return Some(10);
    }
    let size = four_at(bytes, 10) as usize;
    if MAX_TEXT < size || bytes.len() < 14 + size {
        return Some(10);
    }
    None
}

// Whether the bytes begin with `FMR1`.
fn has_magic(bytes: &[u8]) -> bool
    ensures { result ≡ has_magic bytes.now }
{
    byte_at(bytes, 0) == 0x46
        && byte_at(bytes, 1) == 0x4D
        && byte_at(bytes, 2) == 0x52
        && byte_at(bytes, 3) == 0x31
}

// The byte at a position, or 0 behind the end.
fn byte_at(bytes: &[u8], position: usize) -> u8
    ensures { result ≡ byte_at bytes.now position }
{
    match bytes.get(position) {
        Some(byte) => *byte,
        None => 0,
    }
}
