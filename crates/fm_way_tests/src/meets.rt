//! Processes that threads run beside one another, as a gate sees them, and as they stand on record.

use crate::runs::{Ran, THREE_BRANCHES, THREE_TRACK, file_with, run_at};
use fm_edge::{Gate, MeetGate, Moment};
use fm_record::{Step, read_step};
use std::hint::spin_loop;
use std::process::Abort;
use std::sync::atomic::{AtomicU64, Ordering};
use std::test::Fail;
use std::thread::yield_now;

/// Two notes, the second one behind a thousand rests without a length, and their track.
const SLICES: &[u8] =
    b"formula 1; par { branch { note c4 1/4; } branch { repeat 1000 { rest ticks 0; } \
    note e4 1/8; } }";

const SLICES_TRACK: &[u8] = &[
    0, 0x90, 0x3C, 0x40, 0, 0x90, 0x40, 0x40, 0x81, 0x58, 0x80, 0x40, 0x40, 0x81, 0x58, 0x80, 0x3C,
    0x40, 0x30, 0xFF, 0x2F, 0,
];

/// Texts, how many time slices of the second branch begin while the first one of the first branch
/// is held, and the tracks.
const MEETINGS: &[(&[u8], u32, &[u8])] = &[
    (THREE_BRANCHES, 1, THREE_TRACK),
    (SLICES, 2, SLICES_TRACK),
];

/// A hold is given up after so many turns.
const TURNS: u32 = 67_108_864;

#[test]
fn branches_run_beside_one_another(rt: HostRuntime) -> Result<(), Fail> {
    let alloc = rt.alloc();
    for (text, laps, track) in MEETINGS {
        let gate = MeetGate::new(1, 2, *laps, TURNS);
        let ran = run_at(&rt, alloc, "a.txt b.mid --workers 4", text, &[], &gate)?;
        let file = file_with(alloc, track)?;
        check_left(&rt, &ran, &file);
        assert_eq!(rt; gate.met(), true);
    }
    Ok(())
}

// Compares what a run leaves with status 0, an untouched console and this file.
fn check_left<R: Abort>(rt: &R, ran: &Ran, file: &[u8]) {
    let left = (ran.status, ran.console.content(), ran.sink.content());
    assert_eq!(rt; left, (0, b"".as_slice(), file));
}

/// How many processes are held at a time.
const CROWD: u64 = 3;

/// Of so many turns of waiting one lets other threads run first.
const SPINS: u32 = 16_384;

/// Holds the first time slices of the processes behind the first one until three have begun: three
/// threads are in them then.
#[derive(Drop)]
struct CrowdGate {
    begun: AtomicU64,
}

impl Gate for CrowdGate {
    fn pass(&self, _actor: u32, process: u32, moment: Moment) {
        if moment == Moment::End || process == 0 {
            return;
        }
        self.begun.fetch_add(1, Ordering::SeqCst);
        for turn in 0..TURNS {
            if CROWD <= self.begun.load(Ordering::SeqCst) {
                return;
            }
            if turn % SPINS == 0 {
                yield_now();
            } else {
                spin_loop();
            }
        }
    }
}

// The seat that takes a step; 0 where the step names none.
fn seat_of(step: Step) -> u32 {
    match step {
        Step::Look { seat, .. } => seat,
        Step::Claim { seat, .. } => seat,
        Step::Start { seat, .. } => seat,
        Step::Record { seat, .. } => seat,
        Step::Recall { seat, .. } => seat,
        Step::Give { seat, .. } => seat,
        Step::Pace { seat } => seat,
        Step::Publish => 0,
        Step::Release { .. } => 0,
    }
}

// How many events are computed in the first hold of process 1, where this step ends it.
fn computed_first(step: Step, before: Option<u32>) -> Option<u32> {
    match step {
        Step::Give {
            process: 1,
            computed,
            ..
        } => before.or(Some(computed)),
        _ => before,
    }
}

// The highest seat of these steps, and how many events the first hold of process 1 computes.
fn summed(steps: &[u8]) -> (u32, Option<u32>) {
    let (mut highest, mut computed, mut rest) = (0, None, steps);
    for _ in 0..steps.len() {
        if rest.is_empty() {
            break;
        }
        let Some((step, size)) = read_step(rest) else {
            break;
        };
        highest = highest.max(seat_of(step));
        computed = computed_first(step, computed);
        rest = rest.get(size..).unwrap_or(&[]);
    }
    (highest, computed)
}

// While three threads are held the floor stays at 0. Two events wait in one queue all the same, and
// the second, at 432, lies within the lead.
#[test]
fn a_record_has_the_seats_the_room_and_the_lead_of_its_run(rt: HostRuntime) -> Result<(), Fail> {
    let alloc = rt.alloc();
    let gate = CrowdGate {
        begun: AtomicU64::new(0),
    };
    let words = "a.txt b.record --record --workers 4";
    let ran = run_at(&rt, alloc, words, THREE_BRANCHES, &[], &gate)?;
    let record = ran.sink.content();
    let (highest, computed) = summed(record.get(14 + THREE_BRANCHES.len()..).unwrap_or(&[]));
    assert_eq!(rt; (ran.status, 1 < highest, computed), (0, true, Some(2)));
    Ok(())
}
