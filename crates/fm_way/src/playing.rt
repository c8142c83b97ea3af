//! Plays a plan: alone, in rounds of threads, or by a crew of threads that run freely.
ghost use Rattle.std.specs.Prelude.{◌≡◌, ◌<◌, ◌≤◌, IfOk, length, true, ℕ};
ghost use Rattle.fm_buffer.specs.declared.outbox.TheConstants.{MAX_ROOM};
ghost use Rattle.fm_edge.specs.Content.{IsNew};
ghost use Rattle.fm_way.specs.Ways.{CanPlay, Plays, is_alone, threads_of};
ghost use Rattle.fm_way.specs.declared.way.Way.TheVariants.{Alone, Conductor, Crew, Rounds as InRounds};

use crate::performance::Performance;
use crate::way::Way;
use fm_edge::{Gate, Sink};
use fm_play::Played;
use fm_round::Rounds;
use fm_tell::RunFault;
use std::alloc::Global;
use std::sync::Wait;
use std::thread::Threads;

/// Writes the file of the plan's piece into a new sink, in the way of the performance, and gives
/// its size. All memory is taken before the first byte.
pub fn play<R: Threads + Wait + Sync, G: Gate + Sync, K: Sink>(
    rt: &R,
    alloc: Global,
    performance: Performance,
    gate: &G,
    sink: &mut K,
) -> Result<Played, RunFault>
    requires can { CanPlay performance.way performance.room performance.lead }
    requires new { IsNew (K.seen.content sink.old) }
    ensures { Plays K.seen sink.old sink.new performance.plan result }
{
    match performance.way {
        Way::Alone | Way::Conductor => play_alone(alloc, performance, gate, sink),
        Way::Rounds { threads } => play_in_rounds(rt, alloc, performance, threads, gate, sink),
        Way::Crew { workers } => play_by_crew(rt, alloc, performance, workers, gate, sink),
    }
}

/// The same where the calling thread plays alone. It is not handed a runtime, so it starts no
/// thread and waits for none: it always returns, if the calls of the gate and the sink do.
pub fn play_alone<G: Gate, K: Sink>(
    alloc: Global,
    performance: Performance,
    gate: &G,
    sink: &mut K,
) -> Result<Played, RunFault>
    requires can { CanPlay performance.way performance.room performance.lead }
    requires alone { is_alone performance.way ≡ true }
    requires new { IsNew (K.seen.content sink.old) }
    ensures { Plays K.seen sink.old sink.new performance.plan result }
{
    match performance.way {
        Way::Conductor => conduct_only(alloc, performance, gate, sink),
        Way::Alone | Way::Rounds { .. } | Way::Crew { .. } => run_rounds(alloc, performance, sink),
    }
}

// Plays in rounds of this thread.
fn run_rounds<K: Sink>(
    alloc: Global,
    performance: Performance,
    sink: &mut K,
) -> Result<Played, RunFault>
    requires can { CanPlay performance.way performance.room performance.lead }
    requires way { performance.way ≡ Alone }
    requires new { IsNew (K.seen.content sink.old) }
    ensures { Plays K.seen sink.old sink.new performance.plan result }
{
    let Performance {
        plan,
        room,
        lead,
        ..
    } = performance;
    let rounds = Rounds::open(alloc, plan, room, lead)?;
    Ok(rounds.play_alone(sink)?)
}

// Plays by a crew without workers, whose conductor runs all processes.
fn conduct_only<G: Gate, K: Sink>(
    alloc: Global,
    performance: Performance,
    gate: &G,
    sink: &mut K,
) -> Result<Played, RunFault>
    requires can { CanPlay performance.way performance.room performance.lead }
    requires way { performance.way ≡ Conductor }
    requires new { IsNew (K.seen.content sink.old) }
    ensures { Plays K.seen sink.old sink.new performance.plan result }
{
    let Performance {
        plan,
        room,
        lead,
        ..
    } = performance;
    let (board, mut conductor, _others) = fm_crew::open(alloc, plan, room, lead, 0)?;
    Ok(fm_crew::conduct_alone(&board, &mut conductor, gate, sink)?)
}

// Plays in rounds of so many threads.
fn play_in_rounds<R: Threads + Sync, G: Gate + Sync, K: Sink>(
    rt: &R,
    alloc: Global,
    performance: Performance,
    threads: u32,
    gate: &G,
    sink: &mut K,
) -> Result<Played, RunFault>
    requires can { CanPlay performance.way performance.room performance.lead }
    requires way { performance.way ≡ InRounds threads }
    requires new { IsNew (K.seen.content sink.old) }
    ensures { Plays K.seen sink.old sink.new performance.plan result }
{
    let Performance {
        plan,
        room,
        lead,
        ..
    } = performance;
    let rounds = Rounds::open(alloc, plan, room, lead)?;
    Ok(rounds.play(rt, threads, gate, sink)?)
}

// Plays by a crew of so many workers, and a conductor on this thread.
fn play_by_crew<R: Threads + Wait + Sync, G: Gate + Sync, K: Sink>(
    rt: &R,
    alloc: Global,
    performance: Performance,
    workers: u32,
    gate: &G,
    sink: &mut K,
) -> Result<Played, RunFault>
    requires can { CanPlay performance.way performance.room performance.lead }
    requires way { performance.way ≡ Crew workers }
    requires new { IsNew (K.seen.content sink.old) }
    ensures { Plays K.seen sink.old sink.new performance.plan result }
{
    let Performance {
        plan,
        room,
        lead,
        ..
    } = performance;
    let (board, mut conductor, others) = fm_crew::open(alloc, plan, room, lead, workers)?;
    Ok(fm_crew::play(rt, &board, &mut conductor, others, gate, sink)?)
}
