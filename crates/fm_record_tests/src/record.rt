//! A tape with steps of all kinds, the record that it is, and heads that cannot stand.

ghost use Rattle.fm_record.specs.StepBytes.{HasFields};

use crate::same::same;
use fm_record::{BadHeader, MAX_RECORD, Reel, Step, Tape, header, read_step};
use std::alloc::AllocError;
use std::process::Abort;
use std::test::*;

/// What stands before the steps: 3 seats, room 32, lead 7,680, and the text `formula 1;`.
const HEAD: [u8; 24] = *b"FMR1\x03\x20\0\0\x1E\0\0\0\0\x0Aformula 1;";

/// A step of each kind, one after the other.
const STEPS: [u8; 42] = [
    1, 1, 1, 2, 2, 16, 63, 255, 3, 3, 4, 5, 4, 0, 0, 7, 5, 2, 1, 0, 6, 16, 63, 255, 64, 1, 44, 1,
    0, 0, 0, 0, 0, 1, 7, 8, 3, 9, 1, 2, 3, 4,
];

const GIVE: Step = Step::Give {
    seat: 16,
    process: 16_383,
    taken: 64,
    computed: 300,
    clock: 1_099_511_627_776,
    ended: true,
};

// Pushes a step, for which there has to be memory.
fn pushes<R: Abort>(rt: &R, tape: &mut Tape, step: Step)
    requires { HasFields step }
{
    assert!(rt; tape.push(&step).is_ok());
}

// A tape with a step of each kind.
fn filled<R: Abort + AllocGlobal>(rt: &R) -> Result<Tape, AllocError> {
    let mut tape = Tape::new(rt.alloc(), 3, 32, 7_680, b"formula 1;")?;
    push_pairs(rt, &mut tape);
    pushes(rt, &mut tape, GIVE);
    pushes(rt, &mut tape, Step::Publish);
    pushes(rt, &mut tape, Step::Pace { seat: 3 });
    pushes(rt, &mut tape, Step::Release { count: 0x0102_0304 });
    Ok(tape)
}

// Pushes the kinds that name a seat and a process.
fn push_pairs<R: Abort>(rt: &R, tape: &mut Tape) {
    pushes(
        rt,
        tape,
        Step::Look {
            seat: 1,
            process: 258,
        },
    );
    pushes(
        rt,
        tape,
        Step::Claim {
            seat: 16,
            process: 16_383,
        },
    );
    pushes(
        rt,
        tape,
        Step::Start {
            seat: 3,
            process: 1_029,
        },
    );
    pushes(
        rt,
        tape,
        Step::Record {
            seat: 0,
            process: 7,
        },
    );
    pushes(
        rt,
        tape,
        Step::Recall {
            seat: 2,
            process: 256,
        },
    );
}

// Compares the parts of a record of that tape.
fn has_its_parts<R: Abort>(rt: &R, reel: &Reel<'_>) {
    same(rt, &(reel.seats, reel.room, reel.lead), &(3, 32, 7_680));
    same(rt, &reel.text, &b"formula 1;".as_slice());
    same(rt, &reel.steps, &STEPS.as_slice());
}

// Compares the bytes of that tape.
fn is_whole<R: Abort>(rt: &R, bytes: &[u8]) {
    assert!(rt; bytes.len() == 66);
    same(rt, &&bytes[..24], &HEAD.as_slice());
    match header(bytes) {
        Ok(reel) => has_its_parts(rt, &reel),
        Err(_) => panic!(rt; "the head of a tape can stand"),
    }
}

#[test]
fn a_tape_is_a_record(rt: HostRuntime) -> Result<(), Fail> {
    let tape = filled(&rt)?;
    same(&rt, &tape.is_short(), &false);
    same(&rt, &tape.steps(), &STEPS.as_slice());
    is_whole(&rt, tape.bytes());
    Ok(())
}

#[test]
fn a_step_is_read_from_the_front(rt: HostRuntime) {
    let given = read_step(&STEPS[20..]);
    assert!(rt;
        matches!(
            given,
            Some((
                Step::Give {
                    seat: 16,
                    process: 16_383,
                    taken: 64,
                    computed: 300,
                    clock: 1_099_511_627_776,
                    ended: true,
                },
                14,
            ))
        )
    );
    assert!(rt; matches!(read_step(&STEPS[34..]), Some((Step::Publish, 1))));
    assert!(rt; read_step(&STEPS[37..41]).is_none());
}

/// Bytes, and the position of the first field that cannot stand.
const HEADS: &[(&[u8], u32)] = &[
    (b"", 0),
    (b"FMR", 0),
    (b"FMR2\x03", 0),
    (b"FMR1\x12", 4),
    (b"FMR1\x11\x41", 5),
    (b"FMR1\x11\x40\0\x0F\x42\x41", 6),
    (b"FMR1\x11\x40\0\x0F\x42\x40\0\x10\0\x01", 10),
    (b"FMR1\x01\x01\0\0\0\0\0\0\0\x0Aformula 1", 10),
];

// The first field of these bytes that cannot stand is at this position.
fn is_told<R: Abort>(rt: &R, bytes: &[u8], position: u32) {
    assert!(rt; bytes.len() <= MAX_RECORD);
    let told = header(bytes).map(|reel| reel.room);
    same(rt, &told, &Err(BadHeader { position }));
}

#[test]
fn the_first_field_that_cannot_stand_is_told(rt: HostRuntime) {
    for (bytes, position) in HEADS {
        is_told(&rt, bytes, *position);
    }
}
