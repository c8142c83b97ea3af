//! Files and bytes that are none, worked out by hand from the format, and one caller.
ghost use Rattle.std.specs.Prelude.{◌≡◌, ◌≤◌, length};
ghost use Rattle.fm_read.specs.Written.{time_after};

use crate::same::{same, same_bytes};
use fm_msg::Msg;
use fm_read::{Entry, File, MAX_FILE, Track, message_from, read};
use std::process::Abort;
use std::test::Fail;

/// A quarter note that sounds for 90 hundredths of it.
const NOTE: [u8; 42] = [
    0x4D, 0x54, 0x68, 0x64, 0, 0, 0, 6, 0, 0, 0, 1, 1, 0xE0, 0x4D, 0x54, 0x72, 0x6B, 0, 0, 0, 0x14,
    0, 0xFF, 0x51, 3, 7, 0xA1, 0x20, 0, 0x90, 0x3C, 0x40, 0x83, 0x30, 0x80, 0x3C, 0x40, 0x30, 0xFF,
    0x2F, 0,
];

/// Its entries: delta, status, the delta's bytes and the event's.
const ENTRIES: &[(u32, u8, &[u8], &[u8])] = &[
    (0, 0xFF, &[0], &[0xFF, 0x51, 3, 7, 0xA1, 0x20]),
    (0, 0x90, &[0], &[0x90, 0x3C, 0x40]),
    (432, 0x80, &[0x83, 0x30], &[0x80, 0x3C, 0x40]),
    (48, 0xFF, &[0x30], &[0xFF, 0x2F, 0]),
];

/// Bytes with the number of their fault and its position.
const FAULTS: &[(&[u8], (u8, u32))] = &[
    (b"RIFF", (21, 0)),
    (b"", (22, 0)),
    (b"MTh", (22, 0)),
    (b"MThd\0\0\0", (23, 7)),
    (b"MThd\0\0\0\x05", (24, 4)),
    (b"MThd\0\0\0\x06\0\x02", (25, 8)),
    (b"MThd\0\0\0\x06\0\x03", (26, 8)),
    (b"MThd\0\0\0\x06\0\0\0\x01\xE7\x28", (27, 12)),
    (
        b"MThd\0\0\0\x06\0\0\0\x01\x01\xE0MTrk\0\0\0\x05\x80\x80\x80\x80\0",
        (28, 25),
    ),
    (
        b"MThd\0\0\0\x06\0\0\0\x01\x01\xE0MTrk\0\0\0\x02\0\xF1",
        (29, 23),
    ),
    (
        b"MThd\0\0\0\x06\0\0\0\x01\x01\xE0MTrk\0\0\0\x03\0\x90\x80",
        (30, 24),
    ),
    (
        b"MThd\0\0\0\x06\0\0\0\x01\x01\xE0MTrk\0\0\0\x02\0\x40",
        (31, 23),
    ),
    (b"MThd\0\0\0\x06\0\0\0\x01\x01\xE0MTrk\0\0\0\0", (32, 22)),
    (
        b"MThd\0\0\0\x06\0\0\0\x01\x01\xE0MTrk\0\0\0\x05\0\xFF\x2F\0\0",
        (33, 26),
    ),
    (b"MThd\0\0\0\x06\0\0\0\x01\x01\xE0", (34, 14)),
    // A track that is cut: a fault before the end is the first one.
    (
        b"MThd\0\0\0\x06\0\0\0\x01\x01\xE0MTrk\0\0\0\x14\0\xF1",
        (29, 23),
    ),
    (
        b"MThd\0\0\0\x06\0\0\0\x01\x01\xE0MTrk\0\0\0\x14\0\x90\x3C",
        (23, 25),
    ),
    // A line end behind the last chunk.
    (
        b"MThd\0\0\0\x06\0\0\0\x01\x01\xE0MTrk\0\0\0\x04\0\xFF\x2F\0\n",
        (23, 27),
    ),
    // A text event ends running status.
    (
        b"MThd\0\0\0\x06\0\0\0\x01\x01\xE0MTrk\0\0\0\x0B\0\x90\x3C\x40\0\xFF\x01\0\0\x3C\x40",
        (31, 31),
    ),
];

/// Events by their status and their bytes, with their messages.
const MESSAGES: &[(u8, &[u8], Option<Msg>)] = &[
    (
        0x91,
        &[0x91, 60, 0],
        Some(Msg::On {
            channel: 1,
            key: 60,
            velocity: 0,
        }),
    ),
    (
        0xE2,
        &[0, 0x40],
        Some(Msg::Bend {
            channel: 2,
            bend: 8192,
        }),
    ),
    (
        0xC3,
        &[5],
        Some(Msg::Program {
            channel: 3,
            program: 5,
        }),
    ),
    (0xD0, &[0xD0, 5], None),
    (0xFF, &[0xFF, 0x2F, 0], None),
];

// One caller: the tick at which a track ends.
fn end_of(track: Track<'_>) -> u64
    requires { length track ≤ MAX_FILE }
    ensures { result ≡ time_after 0 track.entry }
{
    let mut entries = track;
    let mut now = 0;
    while let Some(entry) = entries.next() {
        now += entry.delta as u64;
    }
    now
}

// The number of the first fault and its position, or zeros.
fn fault_of(bytes: &[u8]) -> (u8, u32) {
    if bytes.len() > MAX_FILE {
        return (35, 0);
    }
    match read(bytes) {
        Ok(_) => (0, 0),
        Err(fault) => (fault.kind.number(), fault.position),
    }
}

#[test]
fn bytes_have_their_first_fault(rt: HostRuntime) {
    for (bytes, want) in FAULTS {
        same(&rt, &fault_of(bytes), want);
    }
    same(&rt, &fault_of(&NOTE[..41]), &(23, 41));
}

#[test]
fn a_fault_has_a_text(rt: HostRuntime) -> Result<(), Fail> {
    if let Err(fault) = read(b"RIFF") {
        let text = format!(in rt.alloc(); "{fault}")?;
        let wanted = b"byte 0: fault 21";
        same_bytes(&rt, text.as_bytes(), wanted);
    }
    Ok(())
}

// The next entry has these parts.
fn has_entry<R: Abort>(
    rt: &R,
    entry: Option<Entry<'_>>,
    wanted: (u32, u8),
    lead: &[u8],
    bytes: &[u8],
) {
    match entry {
        Some(entry) => {
            same(rt, &(entry.delta, entry.status), &wanted);
            same_bytes(rt, entry.lead, lead);
            same_bytes(rt, entry.bytes, bytes);
        }
        None => panic!(rt; "the track has an entry more"),
    }
}

// The track has the entries of the note, and no more.
fn has_entries<R: Abort>(rt: &R, track: Track<'_>) {
    let mut track = track;
    for (delta, status, lead, bytes) in ENTRIES {
        has_entry(rt, track.next(), (*delta, *status), lead, bytes);
    }
    same(rt, &track.next().is_none(), &true);
}

// The file has these parts in front of its tracks.
fn has_parts<R: Abort>(rt: &R, file: &File<'_>) {
    let numbers = (file.format(), file.stated(), file.division());
    same(rt, &numbers, &(0, 1, 480));
    same_bytes(rt, file.head(), &NOTE[..14]);
    same_bytes(rt, file.rest(), &NOTE[14..]);
    match file.chunks().next() {
        Some(chunk) => same_bytes(rt, chunk.body, &NOTE[22..]),
        None => panic!(rt; "a note has a chunk"),
    }
}

// The file has one track, which a pass over its chunks meets.
fn has_one_track<R: Abort>(rt: &R, file: &File<'_>) {
    let mut chunks = file.chunks();
    let met = (chunks.next_track().is_some(), chunks.next_track().is_none());
    same(rt, &(file.tracks(), met), &(1, (true, true)));
}

#[test]
fn a_quarter_note_has_its_parts(rt: HostRuntime) {
    match read(&NOTE) {
        Ok(file) => {
            has_parts(&rt, &file);
            has_one_track(&rt, &file);
            if 0 < file.tracks() {
                same(&rt, &end_of(file.track(0)), &480);
                has_entries(&rt, file.track(0));
            }
        }
        Err(_) => panic!(&rt; "a note is a file"),
    }
}

#[test]
fn events_have_their_messages(rt: HostRuntime) {
    for (status, bytes, want) in MESSAGES {
        same(&rt, &message_from(*status, bytes), want);
    }
}
