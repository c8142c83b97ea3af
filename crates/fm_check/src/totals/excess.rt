//! Which total is too much.

ghost use Rattle.std.specs.Prelude.{◌≡◌, nat_lt, option_map};
ghost use Rattle.fm_lex.specs.declared.spot.Spot.{Spot};
ghost use Rattle.fm_meaning.specs.Rules.{VersionRules};
ghost use Rattle.fm_meaning.specs.Faults.{first_found};
ghost use Rattle.fm_meaning.specs.Bounds.{Totals, limit_faults};
ghost use Rattle.fm_check.specs.Saturation.{saturated};
ghost use Rattle.fm_rules.specs.Why.{fault_at};

use crate::totals::sums::Sums;
use fm_line::MAX_EVENTS;
use fm_rules::Why;
use fm_tick::MAX_TICK;

/// The most operations, once phrases and loops that fork are written out.
pub const MAX_OPERATIONS: u32 = 262_144;

/// The most steps of all processes.
pub const MAX_STEPS: u32 = 16_777_216;

// Whether a total passes a limit.
fn passes(total: u64, limit: u64) -> bool
    ensures { result ≡ nat_lt limit total }
{
    total > limit
}

/// The first total of a whole score that passes its limit, if one does. The version of the score
/// has so many processes at most.
#[tactic(auto, using(crate::proofs::LimitLemmas::capped_lt))]
pub(crate) fn first_excess(most_processes: u32, whole: Sums) -> Option<Why>
    ensures { (rules : VersionRules) (spot : Spot) (a : Totals) →
        rules.most_processes ≡ most_processes → whole ≡ saturated a →
        first_found (limit_faults rules spot a) ≡ option_map (fault_at spot) result }
{
    if passes(whole.processes, u64::from(most_processes)) {
        Some(Why::TooManyProcesses)
    } else if passes(whole.operations, u64::from(MAX_OPERATIONS)) {
        Some(Why::TooManyOperations)
    } else if passes(whole.length, MAX_TICK) {
        Some(Why::TooLong)
    } else if passes(whole.events, u64::from(MAX_EVENTS)) {
        Some(Why::TooManyEvents)
    } else if passes(whole.steps, u64::from(MAX_STEPS)) {
        Some(Why::TooManySteps)
    } else {
        None
    }
}
