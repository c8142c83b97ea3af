//! The process from which the next events come.
ghost use Rattle.std.specs.Prelude.{◌≡◌, ◌^◌, ◌<◌, length};
ghost use Rattle.fm_round.specs.Chain.{AreChained};
ghost use Rattle.fm_round.specs.Lanes.{AllLanes, LeastOf, lesser_of};

use crate::lane::{Lane, clock};
use fm_strand::Plan;

/// The least pair of clock and process of those that have started and not ended: no event that is
/// still to be computed lies before it. Those in the chain are gone through.
pub fn least(plan: &Plan, next: &[u32], lanes: &[Lane]) -> Option<(u64, u32)>
    requires few { length lanes.now < 2 ^ 32 }
    requires lanes { AllLanes plan.now lanes.now }
    requires chained { AreChained next.now lanes.now }
    ensures { LeastOf plan.now lanes.now (length lanes.now) result }
{
    let mut best = None;
    let mut at = 0;
    while (at as usize) < lanes.len() {
        best = lesser(best, clock(plan, at, &lanes[at as usize]), at);
        at = next[at as usize];
    }
    best
}

// The lesser of a pair and that of a clock and a later process.
fn lesser(best: Option<(u64, u32)>, clock: Option<u64>, process: u32) -> Option<(u64, u32)>
    ensures { result ≡ lesser_of best clock process }
{
    match (best, clock) {
        (_, None) => best,
        (Some((time, first)), Some(clock)) if time <= clock => Some((time, first)),
        (_, Some(clock)) => Some((clock, process)),
    }
}
