//! Where a process starts, from where those before it end.
ghost use Rattle.std.specs.Prelude.{◌≡◌, ◌<◌, length, slice_index_or};
ghost use Rattle.fm_program.specs.Fit.{PartsFit};
ghost use Rattle.fm_strand.specs.Course.{first_place, start_place};
ghost use Rattle.fm_play.specs.Places.{ends_below};

use crate::start::met;
use fm_strand::{Place, Plan, first};

/// Where a process starts, given where all before it end.
pub(crate) fn start_from(plan: &Plan, process: u32, ends: &[Place]) -> Place
    requires fits { PartsFit plan.now }
    requires process { process < length plan.now.programs }
    requires ends { ends.now ≡ ends_below plan.now process }
    ensures { result ≡ start_place plan.now process }
{
    let mut latest = None;
    for before in plan.predecessors(process) {
        let end = end_at(ends, *before);
        latest = Some(met(latest, end));
    }
    match latest {
        Some(place) => place,
        None => first(),
    }
}

// Where a process ends, of which it is known.
fn end_at(ends: &[Place], process: u32) -> Place
    requires { process < length ends.now }
    ensures { result ≡ slice_index_or ends.now process first_place }
{
    ends[process as usize]
}
