//! Which actors pass the gate in each way to play, and with each task.

use crate::runs::{NOTE, Ran, THREE_BRANCHES, run_at};
use fm_edge::{Gate, Moment};
use std::alloc::{AllocError, Global};
use std::process::Abort;
use std::sync::Wait;
use std::sync::atomic::{AtomicU64, Ordering};
use std::test::Fail;
use std::thread::Threads;

/// Notes which actors pass it: a bit for each.
#[derive(Drop)]
struct ActorGate {
    actors: AtomicU64,
}

impl Gate for ActorGate {
    fn pass(&self, actor: u32, _process: u32, _moment: Moment) {
        self.actors.fetch_or(1 << (actor % 64), Ordering::SeqCst);
    }
}

/// Three branches of many notes each.
const LONG_BRANCHES: &[u8] = b"formula 1; par { branch { repeat 99 { note c4 1/4; } } \
    branch { repeat 99 { note e4 1/4; } } branch { repeat 99 { note g4 1/4; } } }";

/// More than 512 processes, for each event of a room of 1.
const CROWD: &[u8] =
    b"formula 1; repeat 2 { note c4 1/4; } repeat 200 { par { branch { } branch { } } }";

/// Two processes, with two events.
const FEW: &[u8] = b"formula 1; par { branch { note c4 1/4; } branch { } }";

/// Two processes, with four events.
const FOUR: &[u8] = b"formula 1; par { branch { note c4 1/4; } branch { note e4 1/4; } }";

/// Words, a text, and a bit for each actor that may pass. Some do, but where none may: one thread
/// that plays in rounds has no gate to pass.
const ACTORS: &[(&str, &[u8], u64)] = &[
    // Alone.
    ("a.txt b.mid --workers 0", THREE_BRANCHES, 0),
    ("a.txt b.mid --workers 0 --rounds", LONG_BRANCHES, 0),
    ("a.txt b.mid --workers 4 --room 1", CROWD, 0),
    ("a.txt b.mid --workers 4", FEW, 0),
    // The conductor of a board without other seats, for one process.
    ("a.txt b.mid --workers 4", NOTE, 1),
    ("a.txt b.mid --workers 4 --rounds", NOTE, 1),
    // Rounds of so many threads.
    ("a.txt b.mid --workers 1 --rounds", LONG_BRANCHES, 1),
    ("a.txt b.mid --workers 2 --rounds", LONG_BRANCHES, 3),
    // A crew: the conductor and so many workers.
    ("a.txt b.mid --workers 1", FOUR, 3),
    ("a.txt b.mid --workers 1", LONG_BRANCHES, 3),
    ("a.txt b.mid --workers 2", LONG_BRANCHES, 7),
    // The other tasks.
    ("a.txt b.rec --record --workers 2", LONG_BRANCHES, 7),
    ("a.txt b.rec --record --workers 0", LONG_BRANCHES, 3),
    ("a.txt b.mid --workers 4 --parts", THREE_BRANCHES, 0),
    ("a.txt b.mid --workers 4 --from 0", THREE_BRANCHES, 0),
    ("a.txt b.mid --workers 4 --to 480", THREE_BRANCHES, 0),
    ("a.txt b.mid --workers 4 --locate 0", THREE_BRANCHES, 0),
];

// Compares the actors of a run with status 0.
fn check_actors<R: Abort + Threads + Wait + Sync>(
    rt: &R,
    alloc: Global,
    words: &str,
    text: &[u8],
    actors: u64,
) -> Result<Ran, AllocError> {
    let gate = ActorGate {
        actors: AtomicU64::new(0),
    };
    let ran = run_at(rt, alloc, words, text, &[], &gate)?;
    let seen = gate.actors.load(Ordering::SeqCst);
    assert_eq!(rt;
        (ran.status, seen | actors, 0 < seen),
        (0, actors, 0 < actors),
        "at {words}"
    );
    Ok(ran)
}

#[test]
fn each_way_and_each_task_has_its_actors(rt: HostRuntime) -> Result<(), Fail> {
    let alloc = rt.alloc();
    for (words, text, actors) in ACTORS {
        check_actors(&rt, alloc, words, text, *actors)?;
    }
    Ok(())
}

// What a run puts is the input of another one, which has no actor.
fn check_next<R: Abort + Threads + Wait + Sync>(
    rt: &R,
    alloc: Global,
    words: &str,
    next: &str,
    actors: u64,
) -> Result<(), AllocError> {
    let ran = check_actors(rt, alloc, words, THREE_BRANCHES, actors)?;
    check_actors(rt, alloc, next, ran.sink.content(), 0)?;
    Ok(())
}

#[test]
fn one_thread_lists_a_file_and_audits_a_record(rt: HostRuntime) -> Result<(), Fail> {
    let alloc = rt.alloc();
    check_next(
        &rt,
        alloc,
        "a.txt b.mid --workers 0",
        "b.mid c.txt --list",
        0,
    )?;
    let words = "a.txt b.rec --record --workers 2";
    check_next(&rt, alloc, words, "b.rec c.mid --audit --workers 4", 7)?;
    Ok(())
}
