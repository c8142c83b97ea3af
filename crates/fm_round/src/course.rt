//! Plays all rounds.
ghost use Rattle.std.specs.Prelude.{◌≡◌, ◌≤◌, length, OnOk, OnErr, IfOk, IfSome};
ghost use Rattle.fm_edge.specs.Runs.{Breaks};
ghost use Rattle.fm_line.specs.Piece.{piece};
ghost use Rattle.fm_program.specs.Process.{plan_lines};
ghost use Rattle.fm_smf.specs.Track.{events_bytes};
ghost use Rattle.fm_smf.specs.Writing.{Writes, just_begun};
ghost use Rattle.fm_round.specs.Hands.{AreHands, CanRound};
ghost use Rattle.fm_round.specs.Rounds.{AreOpened, first_room};
ghost use Rattle.fm_round.specs.Lanes.{AllAtEnd, RunsAll};

use crate::begin::begin_first;
use crate::lane::Lane;
use crate::least::least;
use crate::release::release;
use crate::stage::Stage;
use crate::turn::take_turn;
use crate::watch::Watch;
use fm_edge::Sink;
use fm_smf::{SinkFault, Writer};
use fm_strand::Plan;

/// Plays all rounds, whoever runs them: a call of `hands` gives each process one quantum, up to the
/// least clock plus the lead. Says how many events these are.
pub fn play_rounds<H: Fn(&Plan, u64, &[u32], &mut [Lane]), K: Sink>(
    hands: &H,
    plan: &Plan,
    stage: &mut Stage,
    lanes: &mut [Lane],
    writer: &mut Writer,
    sink: &mut K,
) -> Result<u64, SinkFault>
    requires hands { AreHands H.Fn (first_room lanes.old) stage.old.lead hands.now }
    requires opened { AreOpened plan.now stage.old lanes.old }
    requires begun { writer.old ≡ just_begun plan.now.profile }
    requires at_end { IfSome (K.seen.content sink.old) (λ c. length c ≡ writer.old.put) }
    ensures ended { OnOk result (AllAtEnd plan.now lanes.new) }
    ensures count { IfOk result (λ n. n ≡ length (piece (plan_lines plan.now))) }
    ensures ok { OnOk result (Writes K.seen
        sink.old sink.new (piece (plan_lines plan.now)) writer.old writer.new) }
    ensures err { OnErr result (Breaks K.seen
        sink.old sink.new (events_bytes writer.old.state (piece (plan_lines plan.now)))) }
{
    let mut events = 0;
    begin_first(plan, &mut stage.watch, lanes);
    while let Some(next) = least(plan, &stage.watch.next, lanes) {
        events += release(Some(next), stage, lanes, writer, sink)?;
        let limit = next.0.saturating_add(stage.lead);
        run_round(hands, plan, limit, &stage.watch, lanes);
        events += take_turn(plan, next.0, stage, lanes, writer, sink)?;
    }
    events += release(None, stage, lanes, writer, sink)?;
    Ok(events)
}

// One quantum of each process up to the limit.
fn run_round<H: Fn(&Plan, u64, &[u32], &mut [Lane])>(
    hands: &H,
    plan: &Plan,
    limit: u64,
    watch: &Watch,
    lanes: &mut [Lane],
)
    requires { CanRound H.Fn hands.now plan.now limit watch.now.next.items lanes.old }
    ensures { RunsAll plan.now limit lanes.old lanes.new }
{
    hands(plan, limit, &watch.next, lanes);
}
