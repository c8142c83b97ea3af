//! Records of small scores, checked: whole runs, and runs with a fault.

ghost use Rattle.std.specs.Prelude.{◌<◌};
ghost use Rattle.fm_msg.specs.declared.msg.TheConstants.{DATA_VALUES};

use crate::same::same;
use fm_audit::{AuditFault, audit, header};
use fm_core::Reason;
use fm_edge::MemorySink;
use fm_hall::are_valid;
use fm_line::{Events, Line, Processes};
use fm_msg::{Event, Msg};
use fm_smf::Profile;
use std::alloc::{AllocError, Global};
use std::process::Abort;
use std::test::*;

/// One seat, room 2, lead 432, and a quarter note.
const NOTE: [u8; 37] = *b"FMR1\x01\x02\0\0\x01\xB0\0\0\0\x17formula 1;note c4 1/4;\n";

/// Its whole run: both events are computed in one hold, all becomes due, both are taken and
/// released.
const NOTE_RUN: [u8; 50] = [
    2, 0, 0, 0, 4, 0, 0, 0, 6, 0, 0, 0, 0, 0, 2, 0, 0, 0, 0, 1, 0xE0, 1, 1, 0, 0, 0, 7, 2, 0, 0, 0,
    6, 0, 0, 0, 2, 0, 0, 0, 0, 0, 0, 1, 0xE0, 1, 9, 0, 0, 0, 2,
];

/// Its file.
const NOTE_FILE: [u8; 42] = [
    0x4D, 0x54, 0x68, 0x64, 0, 0, 0, 6, 0, 0, 0, 1, 1, 0xE0, 0x4D, 0x54, 0x72, 0x6B, 0, 0, 0, 20,
    0, 0xFF, 0x51, 3, 7, 0xA1, 0x20, 0, 0x90, 0x3C, 0x40, 0x83, 0x30, 0x80, 0x3C, 0x40, 0x30, 0xFF,
    0x2F, 0,
];

/// One seat, room 64, lead 7,680 and an empty text.
const VOICES: [u8; 14] = *b"FMR1\x01\x40\0\0\x1E\0\0\0\0\0";

/// The steps of a conductor that plays three voices between two empty processes.
const VOICES_RUN: [u8; 278] = [
    1, 0, 0, 0, 1, 0, 0, 1, 1, 0, 0, 2, 1, 0, 0, 3, 1, 0, 0, 4, 1, 0, 0, 0, 1, 0, 0, 1, 1, 0, 0, 2,
    1, 0, 0, 3, 1, 0, 0, 4, 7, 1, 0, 0, 0, 2, 0, 0, 0, 4, 0, 0, 0, 6, 0, 0, 0, 0, 0, 0, 0, 0, 0, 0,
    0, 0, 1, 1, 0, 0, 1, 3, 0, 0, 1, 4, 0, 0, 1, 6, 0, 0, 1, 0, 0, 2, 0, 0, 0, 0, 1, 0xE0, 1, 1, 0,
    0, 2, 3, 0, 0, 2, 4, 0, 0, 2, 6, 0, 0, 2, 0, 0, 2, 0, 0, 0, 0, 0, 0xF0, 1, 1, 0, 0, 3, 3, 0, 0,
    3, 4, 0, 0, 3, 6, 0, 0, 3, 0, 0, 2, 0, 0, 0, 0, 3, 0xC0, 1, 1, 0, 0, 4, 3, 0, 0, 4, 4, 0, 0, 4,
    6, 0, 0, 4, 0, 0, 0, 0, 0, 0, 0, 3, 0xC0, 1, 9, 0, 0, 0, 0, 1, 0, 0, 0, 1, 0, 0, 1, 1, 0, 0, 2,
    1, 0, 0, 3, 1, 0, 0, 4, 7, 8, 0, 1, 0, 0, 0, 1, 0, 0, 1, 2, 0, 0, 1, 6, 0, 0, 1, 2, 0, 0, 0, 0,
    0, 0, 1, 0xE0, 1, 1, 0, 0, 2, 2, 0, 0, 2, 6, 0, 0, 2, 2, 0, 0, 0, 0, 0, 0, 0, 0xF0, 1, 1, 0, 0,
    3, 2, 0, 0, 3, 6, 0, 0, 3, 2, 0, 0, 0, 0, 0, 0, 3, 0xC0, 1, 1, 0, 0, 4, 9, 0, 0, 0, 6,
];

/// The file: three note-ons at 0, note-offs at 216, 432 and 864, the end at 960.
const VOICES_FILE: [u8; 60] = [
    0x4D, 0x54, 0x68, 0x64, 0, 0, 0, 6, 0, 0, 0, 1, 1, 0xE0, 0x4D, 0x54, 0x72, 0x6B, 0, 0, 0, 0x26,
    0, 0xFF, 0x51, 3, 7, 0xA1, 0x20, 0, 0x90, 0x3C, 0x40, 0, 0x90, 0x40, 0x40, 0, 0x90, 0x43, 0x40,
    0x81, 0x58, 0x80, 0x40, 0x40, 0x81, 0x58, 0x80, 0x3C, 0x40, 0x83, 0x30, 0x80, 0x43, 0x40, 0x60,
    0xFF, 0x2F, 0,
];

/// A process: the key and the end of its note, the processes that it waits for, and its end.
type Voice = (Option<(u8, u64)>, &'static [u32], u64);

/// The processes of a score, the head of its record, and the steps of a whole run.
type Score = (&'static [Voice], &'static [u8], &'static [u8]);

const NOTE_SCORE: Score = (&[(Some((60, 432)), &[], 480)], &NOTE, &NOTE_RUN);

const VOICES_SCORE: Score = (
    &[
        (None, &[], 0),
        (Some((60, 432)), &[0], 480),
        (Some((64, 216)), &[0], 240),
        (Some((67, 864)), &[0], 960),
        (None, &[1, 2, 3], 960),
    ],
    &VOICES,
    &VOICES_RUN,
);

/// The steps of a record: the run up to a byte, the run from another byte on, and more bytes.
type Steps = (usize, usize, &'static [u8]);

/// Steps, what the audit answers, and what the sink holds then.
type Check = (Steps, Result<u64, AuditFault>, &'static [u8]);

const NOTE_CHECKS: &[Check] = &[
    ((50, 50, &[]), Ok(42), &NOTE_FILE),
    ((45, 50, &[]), Err(AuditFault::Unfinished { steps: 7 }), &[]),
    (
        (49, 50, &[]),
        Err(AuditFault::BadStep { position: 45 }),
        &[],
    ),
    (
        (49, 50, &[1]),
        Err(AuditFault::Refused {
            step: 7,
            reason: Reason::WrongCount,
        }),
        &[],
    ),
];

/// With a sink whose first call fails.
const FAILING_CHECKS: &[Check] = &[
    ((50, 50, &[]), Err(AuditFault::Sink), &[]),
    ((45, 50, &[]), Err(AuditFault::Unfinished { steps: 7 }), &[]),
];

const VOICES_CHECKS: &[Check] = &[
    ((278, 278, &[]), Ok(60), &VOICES_FILE),
    (
        (36, 40, &[]),
        Err(AuditFault::Refused {
            step: 9,
            reason: Reason::NotSwept,
        }),
        &[],
    ),
];

// A note of this process from tick 0 to another.
fn sounds(alloc: Global, process: u32, key: u8, end: u64) -> Result<Vec<Event>, AllocError>
    requires { key < DATA_VALUES }
{
    let mut events = Vec::new(alloc);
    let begins = Msg::On {
        channel: 0,
        key,
        velocity: 64,
    };
    let ends = Msg::Off { channel: 0, key };
    events.push(Event::new(0, process, 0, begins))?;
    events.push(Event::new(end, process, 1, ends))?;
    Ok(events)
}

// The line of a process.
fn line<R: Abort + AllocGlobal>(rt: &R, process: u32, voice: &Voice) -> Result<Line, AllocError> {
    let events = match voice.0 {
        Some((key, end)) => {
            assert!(rt; key < 128);
            sounds(rt.alloc(), process, key, end)?
        }
        None => Vec::new(rt.alloc()),
    };
    let predecessors = voice.1.to_vec(rt.alloc())?;
    Ok(Line {
        events: Events::new(events),
        predecessors: Processes::new(predecessors),
        end: voice.2,
    })
}

// The lines of processes.
fn lines<R: Abort + AllocGlobal>(rt: &R, voices: &[Voice]) -> Result<Vec<Line>, AllocError> {
    let mut made = Vec::new(rt.alloc());
    for voice in voices {
        let process = u32::try_from(made.len()).unwrap_or(0);
        made.push(line(rt, process, voice)?)?;
    }
    Ok(made)
}

// Appends bytes, for which there has to be memory.
fn adds<R: Abort>(rt: &R, bytes: &mut Vec<u8>, more: &[u8]) {
    assert!(rt; bytes.extend_from_slice(more).is_ok());
}

// A record of such steps.
fn record<R: Abort + AllocGlobal>(rt: &R, score: &Score, steps: &Steps) -> Vec<u8> {
    let (_, head, run) = *score;
    let (front, rest, more) = *steps;
    assert!(rt; front <= run.len() && rest <= run.len());
    let mut bytes = Vec::new(rt.alloc());
    adds(rt, &mut bytes, head);
    adds(rt, &mut bytes, &run[..front]);
    adds(rt, &mut bytes, &run[rest..]);
    adds(rt, &mut bytes, more);
    bytes
}

// A sink, whose first call fails if it is to.
fn sink(alloc: Global, fails: bool) -> Result<MemorySink, AllocError> {
    let mut calls = Vec::new(alloc);
    if fails {
        calls.push((1, 0))?;
    }
    MemorySink::new(alloc, 100, calls)
}

// Checks a record, and compares what the audit answers and what the sink holds.
fn audits<R: Abort + AllocGlobal>(
    rt: &R,
    score: &Score,
    fails: bool,
    check: &Check,
) -> Result<(), Fail> {
    let bytes = record(rt, score, &check.0);
    let lines = lines(rt, score.0)?;
    let mut sink = sink(rt.alloc(), fails)?;
    assert!(rt; are_valid(&lines));
    assert!(rt; bytes.len() < 500);
    assert!(rt; sink.content().is_empty());
    let reel = header(&bytes).map_err(|_| "header")?;
    let told = audit(rt.alloc(), lines, &Profile::first(), &reel, &mut sink);
    same(rt, &told, &check.1);
    same(rt, &sink.content(), &check.2);
    Ok(())
}

// Goes over checks of a score.
fn all_answer<R: Abort + AllocGlobal>(
    rt: &R,
    score: &Score,
    fails: bool,
    checks: &[Check],
) -> Result<(), Fail> {
    for check in checks {
        audits(rt, score, fails, check)?;
    }
    Ok(())
}

#[test]
fn a_run_with_a_note_gives_its_file_or_its_first_fault(rt: HostRuntime) -> Result<(), Fail> {
    all_answer(&rt, &NOTE_SCORE, false, NOTE_CHECKS)
}

#[test]
fn a_sink_that_fails_is_told_behind_a_whole_run(rt: HostRuntime) -> Result<(), Fail> {
    all_answer(&rt, &NOTE_SCORE, true, FAILING_CHECKS)
}

#[test]
fn the_steps_of_a_crew_give_its_file(rt: HostRuntime) -> Result<(), Fail> {
    all_answer(&rt, &VOICES_SCORE, false, VOICES_CHECKS)
}
