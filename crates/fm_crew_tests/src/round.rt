//! Three voices that start together and end at different times, played in both ways.

use crate::same::same;
use crate::voices::{FILE, plan_of_three_voices};
use fm_edge::{MeetGate, MemorySink};
use fm_round::{Played, Rounds};
use std::process::Abort;
use std::test::*;
use std::thread::Threads;

// Compares what is told of the piece and what the sink holds.
fn has_played<R: Abort>(rt: &R, played: Option<Played>, sink: &MemorySink) {
    let numbers = played.map(|p| (p.events, p.last, p.bytes));
    let wanted = (Some((6, 960, 60)), FILE.as_slice());
    same(rt, &(numbers, sink.content()), &wanted);
}

#[test]
fn three_voices_have_these_bytes_on_one_thread(rt: HostRuntime) -> Result<(), Fail> {
    let alloc = rt.alloc();
    let mut sink = MemorySink::new(alloc, 100, Vec::new(alloc))?;
    let plan = plan_of_three_voices(alloc)?;
    let played = Rounds::open(alloc, plan, 1, 0)?.play_alone(&mut sink).ok();
    has_played(&rt, played, &sink);
    Ok(())
}

// Plays them on four threads and a gate that holds process 1 until process 2 has begun so many
// slices, for so many turns. Says whether they met.
fn meets_in_rounds<R: Abort + AllocGlobal + Threads + Sync>(
    rt: &R,
    laps: u32,
    turns: u32,
) -> Result<bool, Fail> {
    let alloc = rt.alloc();
    let gate = MeetGate::new(1, 2, laps, turns);
    let mut sink = MemorySink::new(alloc, 100, Vec::new(alloc))?;
    let plan = plan_of_three_voices(alloc)?;
    let rounds = Rounds::open(alloc, plan, 32, 7_680)?;
    let played = rounds.play(rt, 4, &gate, &mut sink).ok();
    has_played(rt, played, &sink);
    Ok(gate.met())
}

// Two threads of one round meet. A round has one slice of each process, so a second one of process
// 2 does not come while the first one of process 1 is held.
#[test]
fn a_round_has_one_slice_of_each_process(rt: HostRuntime) -> Result<(), Fail> {
    assert!(&rt; meets_in_rounds(&rt, 1, 67_108_864)?);
    assert!(&rt; !meets_in_rounds(&rt, 2, 1_000)?);
    Ok(())
}
