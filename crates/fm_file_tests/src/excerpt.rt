//! Excerpts byte by byte as the format has them, faults of the sink, and one caller.
ghost use Rattle.std.specs.Prelude.{◌≡◌, ◌≤◌, [], length, Ok};
ghost use Rattle.fm_edge.specs.Content.{IsNew};
ghost use Rattle.fm_read.specs.Files.{Contents, contents};
ghost use Rattle.fm_excerpt.specs.Written.{HasExcerpts};

use crate::memory::memory_of;
use crate::same::{same, same_bytes};
use fm_edge::{MemorySink, Sink};
use fm_excerpt::excerpt;
use fm_msg::Profile;
use fm_read::{MAX_FILE, read};
use std::alloc::AllocError;
use std::process::Abort;

/// A program change and two quarter notes.
const TWO: [u8; 54] = [
    0x4D, 0x54, 0x68, 0x64, 0, 0, 0, 6, 0, 0, 0, 1, 1, 0xE0, 0x4D, 0x54, 0x72, 0x6B, 0, 0, 0, 0x20,
    0, 0xFF, 0x51, 3, 7, 0xA1, 0x20, 0, 0xC0, 5, 0, 0x90, 0x3C, 0x40, 0x83, 0x30, 0x80, 0x3C, 0x40,
    0x30, 0x90, 0x3E, 0x40, 0x83, 0x30, 0x80, 0x3E, 0x40, 0x30, 0xFF, 0x2F, 0,
];

/// From the second note on.
const SECOND: [u8; 45] = [
    0x4D, 0x54, 0x68, 0x64, 0, 0, 0, 6, 0, 0, 0, 1, 1, 0xE0, 0x4D, 0x54, 0x72, 0x6B, 0, 0, 0, 0x17,
    0, 0xFF, 0x51, 3, 7, 0xA1, 0x20, 0, 0xC0, 5, 0, 0x90, 0x3E, 0x40, 0x83, 0x30, 0x80, 0x3E, 0x40,
    0x30, 0xFF, 0x2F, 0,
];

/// The same while its length is 0.
const SECOND_BLANK: [u8; 45] = [
    0x4D, 0x54, 0x68, 0x64, 0, 0, 0, 6, 0, 0, 0, 1, 1, 0xE0, 0x4D, 0x54, 0x72, 0x6B, 0, 0, 0, 0, 0,
    0xFF, 0x51, 3, 7, 0xA1, 0x20, 0, 0xC0, 5, 0, 0x90, 0x3E, 0x40, 0x83, 0x30, 0x80, 0x3E, 0x40,
    0x30, 0xFF, 0x2F, 0,
];

/// Its first 432 ticks.
const SECOND_CUT: [u8; 45] = [
    0x4D, 0x54, 0x68, 0x64, 0, 0, 0, 6, 0, 0, 0, 1, 1, 0xE0, 0x4D, 0x54, 0x72, 0x6B, 0, 0, 0, 0x17,
    0, 0xFF, 0x51, 3, 7, 0xA1, 0x20, 0, 0xC0, 5, 0, 0x90, 0x3E, 0x40, 0x83, 0x30, 0x80, 0x3E, 0x40,
    0, 0xFF, 0x2F, 0,
];

/// The first note.
const FIRST: [u8; 45] = [
    0x4D, 0x54, 0x68, 0x64, 0, 0, 0, 6, 0, 0, 0, 1, 1, 0xE0, 0x4D, 0x54, 0x72, 0x6B, 0, 0, 0, 0x17,
    0, 0xFF, 0x51, 3, 7, 0xA1, 0x20, 0, 0xC0, 5, 0, 0x90, 0x3C, 0x40, 0x83, 0x30, 0x80, 0x3C, 0x40,
    0x30, 0xFF, 0x2F, 0,
];

/// From within the first note to within the second: the first has no end, the second is cut.
const MIDDLE: [u8; 45] = [
    0x4D, 0x54, 0x68, 0x64, 0, 0, 0, 6, 0, 0, 0, 1, 1, 0xE0, 0x4D, 0x54, 0x72, 0x6B, 0, 0, 0, 0x17,
    0, 0xFF, 0x51, 3, 7, 0xA1, 0x20, 0, 0xC0, 5, 0x82, 0x7C, 0x90, 0x3E, 0x40, 0x78, 0x80, 0x3E,
    0x40, 0, 0xFF, 0x2F, 0,
];

/// No tick of it.
const NOTHING: [u8; 36] = [
    0x4D, 0x54, 0x68, 0x64, 0, 0, 0, 6, 0, 0, 0, 1, 1, 0xE0, 0x4D, 0x54, 0x72, 0x6B, 0, 0, 0, 0x0E,
    0, 0xFF, 0x51, 3, 7, 0xA1, 0x20, 0, 0xC0, 5, 0, 0xFF, 0x2F, 0,
];

/// Three controllers and two notes, with running status.
const RUNNING: [u8; 50] = [
    0x4D, 0x54, 0x68, 0x64, 0, 0, 0, 6, 0, 0, 0, 1, 0, 0x60, 0x4D, 0x54, 0x72, 0x6B, 0, 0, 0, 0x1C,
    0, 0xFF, 0x51, 3, 7, 0xA1, 0x20, 0, 0xB0, 7, 3, 5, 7, 4, 4, 0x0A, 1, 1, 0x90, 0x3C, 0x40, 2,
    0x40, 0x40, 8, 0xFF, 0x2F, 0,
];

/// The first of the notes, with the last values before it.
const RUNNING_WINDOW: [u8; 48] = [
    0x4D, 0x54, 0x68, 0x64, 0, 0, 0, 6, 0, 0, 0, 1, 0, 0x60, 0x4D, 0x54, 0x72, 0x6B, 0, 0, 0, 0x1A,
    0, 0xFF, 0x51, 3, 7, 0xA1, 0x20, 0, 0xB0, 7, 4, 0, 0x0A, 1, 0, 0x90, 0x3C, 0x40, 2, 0x80, 0x3C,
    0x40, 0, 0xFF, 0x2F, 0,
];

/// Ticks from and to which an excerpt goes, and the excerpt.
const EXCERPTS: &[(u64, Option<u64>, &[u8])] = &[
    (480, None, &SECOND),
    (100, Some(600), &MIDDLE),
    (5_000, None, &NOTHING),
    (480, Some(100), &NOTHING),
    (1 << 40, Some(1 << 40), &NOTHING),
    (0, Some(480), &FIRST),
    (0, None, &TWO),
];

// One caller: an excerpt of the bytes of a file.
fn excerpt_of<K: Sink>(
    bytes: &[u8],
    profile: &Profile,
    begin: u64,
    until: Option<u64>,
    sink: &mut K,
) -> Option<u64>
    requires new { IsNew (K.seen.content sink.old) }
    requires small { length bytes.now ≤ MAX_FILE }
    requires written { (c : Contents) → contents bytes.now ≡ Ok c → HasExcerpts profile.now c }
{
    match read(bytes) {
        Ok(file) => excerpt(&file, profile, begin, until, sink).ok(),
        Err(_) => None,
    }
}

// Another caller: of the bytes of a file the excerpt of an excerpt. The first one is a file, so it
// is read again, where it is within the limit.
fn excerpt_again<K: Sink>(
    bytes: &[u8],
    profile: &Profile,
    windows: [(u64, Option<u64>); 2],
    memory: &mut MemorySink,
    sink: &mut K,
) -> Option<u64>
    requires empty { memory.old.content ≡ [] }
    requires new { IsNew (K.seen.content sink.old) }
    requires small { length bytes.now ≤ MAX_FILE }
    requires written { (c : Contents) → contents bytes.now ≡ Ok c → HasExcerpts profile.now c }
{
    let Ok(file) = read(bytes) else {
        return None;
    };
    let (begin, until) = windows[0];
    let Ok(_count) = excerpt(&file, profile, begin, until, memory) else {
        return None;
    };
    let content = memory.content();
    if content.len() > MAX_FILE {
        return None;
    }
    let (begin, until) = windows[1];
    excerpt_of(content, profile, begin, until, sink)
}

// The excerpt of the bytes of a file from a tick to a tick, put to a sink of which these calls
// fail, has this length, and leaves this.
fn has_excerpt<R: Abort + AllocGlobal>(
    rt: &R,
    bytes: &[u8],
    profile: &Profile,
    window: (u64, Option<u64>),
    failing: &[(u64, u32)],
    count: Option<u64>,
    left: &[u8],
) -> Result<(), AllocError>
    requires small { length bytes.now ≤ MAX_FILE }
    requires written { (c : Contents) → contents bytes.now ≡ Ok c → HasExcerpts profile.now c }
{
    let mut sink = memory_of(rt.alloc(), 100, failing)?;
    let answer = excerpt_of(bytes, profile, window.0, window.1, &mut sink);
    same(rt, &(window, answer), &(window, count));
    same_bytes(rt, sink.content(), left);
    Ok(())
}

#[test]
fn excerpts_have_their_bytes(rt: HostRuntime) -> Result<(), AllocError> {
    for (begin, until, want) in EXCERPTS {
        let count = Some(want.len() as u64);
        has_excerpt(
            &rt,
            &TWO,
            &Profile::first(),
            (*begin, *until),
            &[],
            count,
            want,
        )?;
    }
    Ok(())
}

#[test]
fn an_excerpt_has_running_status(rt: HostRuntime) -> Result<(), AllocError> {
    let profile = Profile {
        running: true,
        division: 96,
    };
    has_excerpt(
        &rt,
        &RUNNING,
        &profile,
        (10, Some(12)),
        &[],
        Some(48),
        &RUNNING_WINDOW,
    )
}

// The patch is the sixth call: before it come the start, three events and the end.
#[test]
fn an_excerpt_without_its_patch_has_no_length(rt: HostRuntime) -> Result<(), AllocError> {
    let failing = &[(6, 0)];
    has_excerpt(
        &rt,
        &TWO,
        &Profile::first(),
        (480, None),
        failing,
        None,
        &SECOND_BLANK,
    )
}

// From the second note on, and of that what stands before its note-off, which is put at the end.
#[test]
fn an_excerpt_is_cut_again(rt: HostRuntime) -> Result<(), AllocError> {
    let windows = [(480, None), (0, Some(432))];
    let profile = Profile::first();
    let mut middle = memory_of(rt.alloc(), 100, &[])?;
    let mut sink = memory_of(rt.alloc(), 100, &[])?;
    let answer = excerpt_again(&TWO, &profile, windows, &mut middle, &mut sink);
    same(&rt, &answer, &Some(SECOND_CUT.len() as u64));
    same_bytes(&rt, sink.content(), &SECOND_CUT);
    Ok(())
}
