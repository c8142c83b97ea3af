//! A turn along the chain: what is left at the floor's tick is written, process by process.
ghost use Rattle.std.specs.Prelude.{◌≡◌, ◌<◌, length, true, OnOk, OnErr, IfOk};
ghost use Rattle.fm_program.specs.Process.{plan_lines};
ghost use Rattle.fm_round.specs.Lanes.{IsLaneOf, lefts, live_clock};
ghost use Rattle.fm_round.specs.Turns.{AllFrom, GoesOn, IsPlaying, Serves, StopsShort, Turned, is_past};
ghost use Rattle.fm_round.specs.Watching.{AllAwait, AreWatched};

use crate::begin::visit;
use crate::chain::leave;
use crate::lane::{Lane, clock, run_lane};
use crate::release::release_own;
use crate::stage::Stage;
use crate::watch::after;
use fm_buffer::Gather;
use fm_edge::{OpenGate, Sink};
use fm_smf::{SinkFault, Writer};
use fm_strand::Plan;

/// How far a turn has come: to a process of the chain, and whether nothing of the tick is left of
/// those in front of it.
#[derive(Clone, Copy, Drop)]
pub struct Reach {
    pub tick: u64,
    pub at: u32,
    pub whole: bool,
}

/// Serves each process in the chain, in the order of their numbers, and starts those whose
/// predecessors have ended. So the events of a tick come out in one turn, however little room the
/// outboxes have. Says how many events were written.
///
/// Where a process made all steps of a quantum without an event, it stays at the tick, and those
/// behind it are only asked: the next round runs them side by side.
pub fn take_turn<K: Sink>(
    plan: &Plan,
    tick: u64,
    stage: &mut Stage,
    lanes: &mut [Lane],
    writer: &mut Writer,
    sink: &mut K,
) -> Result<u64, SinkFault>
    requires watched { AreWatched plan.now stage.old.watch lanes.old }
    requires awaited { AllAwait plan.now stage.old.watch 0 lanes.old }
    requires may { IsPlaying K.seen plan.now sink.old writer.old lanes.old stage.old.gather }
    requires from { AllFrom tick 0 (lefts plan.now (plan_lines plan.now) lanes.old) }
    ensures turned { OnOk result (Turned plan.now stage.new.watch lanes.old lanes.new) }
    ensures lead { OnOk result (stage.new.lead ≡ stage.old.lead) }
    ensures goes { IfOk result (λ n. GoesOn K.seen plan.now n
        sink.old sink.new writer.old writer.new lanes.old lanes.new
        stage.old.gather stage.new.gather) }
    ensures err { OnErr result (StopsShort K.seen plan.now
        sink.old sink.new writer.old lanes.old stage.old.gather) }
{
    let mut events = 0;
    let mut whole = true;
    let mut at = 0;
    while (at as usize) < lanes.len() {
        let turn = Reach { tick, at, whole };
        let (count, all) = serve(plan, turn, lanes, &mut stage.gather, writer, sink)?;
        events += count;
        whole = all;
        visit(plan, at, &mut stage.watch, lanes);
        at = after(&stage.watch, at);
    }
    leave(&mut stage.watch.next, lanes);
    Ok(events)
}

// Writes what is left of the tick of one process, where nothing is left of it in front: what waits,
// and then what a quantum computes up to the tick, as long as events come. Says how many events
// these are, and whether nothing of the tick is left.
fn serve<K: Sink>(
    plan: &Plan,
    turn: Reach,
    lanes: &mut [Lane],
    gather: &mut Gather,
    writer: &mut Writer,
    sink: &mut K,
) -> Result<(u64, bool), SinkFault>
    requires there { turn.at < length lanes.old }
    requires may { IsPlaying K.seen plan.now sink.old writer.old lanes.old gather.old }
    requires from { turn.whole ≡ true
        → AllFrom turn.tick turn.at (lefts plan.now (plan_lines plan.now) lanes.old) }
    ensures whole { IfOk result (λ r. r.1 ≡ true → turn.whole ≡ true) }
    ensures serves { IfOk result (λ r. Serves plan.now turn.tick turn.at r.1 lanes.old lanes.new) }
    ensures goes { IfOk result (λ r. GoesOn K.seen plan.now r.0
        sink.old sink.new writer.old writer.new lanes.old lanes.new gather.old gather.new) }
    ensures err { OnErr result (StopsShort K.seen plan.now
        sink.old sink.new writer.old lanes.old gather.old) }
{
    if !turn.whole {
        return Ok((0, false));
    }
    let mut events = 0;
    loop {
        let more = release_own((turn.tick, turn.at), lanes, gather, writer, sink)?;
        events += more;
        if has_passed(plan, turn.tick, turn.at, &lanes[turn.at as usize]) {
            return Ok((events, true));
        }
        if more == 0 {
            return Ok((events, false));
        }
        run_lane(
            &OpenGate,
            0,
            plan,
            turn.at,
            turn.tick,
            &mut lanes[turn.at as usize],
        );
    }
}

// Whether a process does not run, or its clock is past the tick.
fn has_passed(plan: &Plan, tick: u64, process: u32, lane: &Lane) -> bool
    requires { IsLaneOf plan.now process lane.now }
    ensures { result ≡ is_past tick (live_clock plan.now lane.now) }
{
    match clock(plan, process, lane) {
        Some(time) => tick < time,
        None => true,
    }
}
