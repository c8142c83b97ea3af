//! Pieces under each way of playing, and their plans.

use crate::runs::{CAPACITY, FILES, Failing, NOTE, THREE_BRANCHES, run_at, sum_of};
use fm_check::check;
use fm_edge::{MemorySink, OpenGate};
use fm_lex::MAX_TEXT;
use fm_parse::parse;
use fm_plan::plan;
use fm_program::Plan;
use fm_round::Rounds;
use std::alloc::{AllocError, Global};
use std::process::Abort;
use std::sync::Wait;
use std::test::Fail;
use std::thread::Threads;

/// The longest piece: 2^40 ticks of rests.
const LONGEST: &[u8] = b"formula 1; repeat 1000000 { rest ticks 1000000; } repeat 99511 { \
    rest ticks 1000000; } rest ticks 627776;";

/// How many bytes its file has, and their sum as [`sum_of`] takes it: the head, a filler for each
/// greatest quantity, the rest and the End of Track are 4,098 calls, and the last call writes three
/// bytes of the length.
const FILE_OF_LONGEST: (usize, u32) = (28_706, 1389874708);

/// The same of the file of the three branches.
const FILE_OF_BRANCHES: (usize, u32) = (60, 1880084997);

/// Four voices of 200 bars.
const PIECE: &[u8] = b"formula 1;
seed 42;
shape rubato = slope 100/1 by 1000 to 1100, breath 1/8,
               slope 100/1 by 1100 to 1000;
shape accel = slope 100/1 by 1000 to 900;
phrase bar { rhythm [1/4, 1/8, 1/8] { repeat 6 { play key (60 + n0); } } }
warp rubato { par {
  branch { channel 0 { artic [100, 90, 90] { repeat 200 { do bar; } } } }
  branch { channel 1 { gate 100 { repeat 400 { note c3, g3 1/2; } } } }
  branch { channel 2 { artic [50, 80] { loud [90, 60] {
    repeat 800 { note key (60 + pick(12)) 1/4; } } } } }
  branch { channel 3 { warp accel { repeat 200 { do bar; } } } }
} }
";

/// How many bytes the file of the piece has, and their sum as [`sum_of`] takes it.
const FILE_OF_PIECE: (usize, u32) = (33_486, 3_919_667_144);

/// Some ways of playing the piece.
const WAYS: &[&str] = &[
    "a.txt b.mid --workers 0 --room 1 --lead 0",
    "a.txt b.mid --workers 0 --room 1 --lead 1000000",
    "a.txt b.mid --workers 0 --room 64 --lead 0",
    "a.txt b.mid --workers 0 --room 64 --lead 1000000",
    "a.txt b.mid --workers 0 --rounds",
    "a.txt b.mid --workers 1 --room 64 --lead 1000000 --rounds",
    "a.txt b.mid --workers 4 --room 64 --lead 1000000 --rounds",
    "a.txt b.mid --workers 16 --room 64 --lead 1000000 --rounds",
    "a.txt b.mid --workers 16 --room 64 --lead 1000000",
];

/// Numbers of threads.
const WORKERS: &[&str] = &[
    "a.txt b.mid --workers 0",
    "a.txt b.mid --workers 1",
    "a.txt b.mid --workers 4",
    "a.txt b.mid --workers 16",
];

/// Rooms of the queues, and how far a process may run ahead.
const QUEUES: &[&str] = &[
    " --room 1 --lead 0",
    " --room 1 --lead 1000000",
    " --room 64 --lead 0",
    " --room 64 --lead 1000000",
    " --room 1 --lead 0 --rounds",
    " --room 1 --lead 1000000 --rounds",
    " --room 64 --lead 0 --rounds",
    " --room 64 --lead 1000000 --rounds",
];

/// What is compared of a run: its status, how many bytes the sink holds, and their sum.
type Measured = (u8, (usize, u32));

// Compares what a run leaves, of which these calls of the sink fail.
fn check_sum<R: Abort + Threads + Wait + Sync>(
    rt: &R,
    alloc: Global,
    (words, text): (&str, &[u8]),
    writes: Failing<'_>,
    wanted: Measured,
) -> Result<(), AllocError> {
    let ran = run_at(rt, alloc, words, text, writes, &OpenGate)?;
    let file = ran.sink.content();
    assert_eq!(rt;
        (ran.status, (file.len(), sum_of(file))),
        wanted,
        "at {words}"
    );
    Ok(())
}

// Compares the three branches, with these workers and these queues.
fn check_branches<R: Abort + Threads + Wait + Sync>(
    rt: &R,
    alloc: Global,
    workers: &str,
    queues: &str,
) -> Result<(), AllocError> {
    let mut words = String::from_str(alloc, workers)?;
    words.push_str(queues)?;
    let run = (words.as_str(), THREE_BRANCHES);
    check_sum(rt, alloc, run, &[], (0, FILE_OF_BRANCHES))
}

#[test]
fn branches_have_the_same_file_in_each_way(rt: HostRuntime) -> Result<(), Fail> {
    let alloc = rt.alloc();
    for workers in WORKERS {
        for queues in QUEUES {
            check_branches(&rt, alloc, workers, queues)?;
        }
    }
    Ok(())
}

#[test]
fn the_piece_has_the_same_file_in_each_way(rt: HostRuntime) -> Result<(), Fail> {
    let alloc = rt.alloc();
    for words in WAYS {
        check_sum(&rt, alloc, (words, PIECE), &[], (0, FILE_OF_PIECE))?;
    }
    Ok(())
}

#[test]
fn a_length_of_which_three_bytes_are_written(rt: HostRuntime) -> Result<(), Fail> {
    let alloc = rt.alloc();
    let run = ("a.txt b.mid --workers 0", LONGEST);
    check_sum(&rt, alloc, run, &[(4_099, 3)], (4, FILE_OF_LONGEST))?;
    Ok(())
}

/// Many processes without an event.
const MANY_PROCESSES: &[u8] = b"formula 1; repeat 1365 { par { branch { } branch { } } }";

/// Texts, and of their plans how many processes there are, how many events are played, the tick of
/// the end and the bytes of the file.
const TOTALS: &[(&[u8], Totals)] = &[
    (NOTE, (1, 2, 480, 42)),
    (PIECE, (6, 8_000, 403_440, 33_486)),
    (MANY_PROCESSES, (4_096, 0, 0, 33)),
];

type Totals = (u32, u64, u64, u64);

// The plan of an accepted text, made by the calls that go by its tree, as the command does not.
pub fn plan_of(alloc: Global, text: &[u8]) -> Result<Plan, Fail> {
    if text.len() > MAX_TEXT {
        return Err(Fail::from("too much text"));
    }
    let score = parse(alloc, text)?;
    let bounds = check(alloc, &score)?;
    Ok(plan(alloc, &score, &bounds)?)
}

fn copy_of(alloc: Global, text: &[u8]) -> Result<Plan, Fail> {
    let plan = plan_of(alloc, text)?;
    Ok(plan.copy(alloc)?)
}

// Plays a plan on the caller's thread. Gives its totals and the file.
fn play_plan(alloc: Global, plan: Plan) -> Result<(Option<Totals>, MemorySink), AllocError> {
    let processes = plan.processes();
    let mut sink = MemorySink::new(alloc, CAPACITY, Vec::new(alloc))?;
    let rounds = Rounds::open(alloc, plan, 32, 7_680)?;
    let played = rounds.play_alone(&mut sink).ok();
    Ok((played.map(|p| (processes, p.events, p.last, p.bytes)), sink))
}

// Compares what a plan plays with its totals, and with the file of its text.
fn check_plan<R: Abort>(
    rt: &R,
    alloc: Global,
    plan: Plan,
    totals: Totals,
    file: &[u8],
) -> Result<(), AllocError> {
    let (played, sink) = play_plan(alloc, plan)?;
    assert_eq!(rt; (played, sink.content()), (Some(totals), file));
    Ok(())
}

// Compares what the plan of a text plays, and what its copy does.
fn check_plans<R: Abort + Threads + Wait + Sync>(
    rt: &R,
    alloc: Global,
    text: &[u8],
    totals: Totals,
) -> Result<(), Fail> {
    let ran = run_at(rt, alloc, FILES, text, &[], &OpenGate)?;
    let file = ran.sink.content();
    check_plan(rt, alloc, plan_of(alloc, text)?, totals, file)?;
    check_plan(rt, alloc, copy_of(alloc, text)?, totals, file)?;
    Ok(())
}

#[test]
fn a_plan_and_its_copy_have_the_file_of_the_text(rt: HostRuntime) -> Result<(), Fail> {
    let alloc = rt.alloc();
    for (text, totals) in TOTALS {
        check_plans(&rt, alloc, text, *totals)?;
    }
    Ok(())
}
