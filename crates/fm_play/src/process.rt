//! One process, from its start to its end.
ghost use Rattle.std.specs.Prelude.{◌≡◌, ◌<◌, length, IfOk};
ghost use Rattle.fm_line.specs.Line.{line};
ghost use Rattle.fm_program.specs.Process.{plan_lines};
ghost use Rattle.fm_strand.specs.Course.{end_place, start_place};

use fm_line::{Events, Line, Processes};
use fm_strand::{Place, Plan, Stepped, Strand};
use std::alloc::{AllocError, Global};

/// The line of a process that starts at a place, and the place where it ends.
pub(crate) fn line_of(
    alloc: Global,
    plan: &Plan,
    process: u32,
    place: &Place,
) -> Result<(Line, Place), AllocError>
    requires process { process < length plan.now.programs }
    requires place { place.now ≡ start_place plan.now process }
    ensures line { IfOk result (λ r. r.0 ≡ line (plan_lines plan.now) process) }
    ensures end { IfOk result (λ r. r.1 ≡ end_place plan.now process) }
{
    let mut strand = Strand::begin(plan, process, place);
    let mut events = Vec::new(alloc);
    loop {
        match strand.step(plan) {
            Stepped::Silent => {}
            Stepped::Event(event) => events.push(event)?,
            Stepped::Ended => {
                let predecessors = plan.predecessors(process).to_vec(alloc)?;
                let line = Line {
                    events: Events::new(events),
                    predecessors: Processes::new(predecessors),
                    end: strand.clock(),
                };
                return Ok((line, strand.place()));
            }
        }
    }
}

/// The place where a process that starts at a place ends. None of its events is kept.
pub(crate) fn end_of(plan: &Plan, process: u32, place: &Place) -> Place
    requires process { process < length plan.now.programs }
    requires place { place.now ≡ start_place plan.now process }
    ensures { result ≡ end_place plan.now process }
{
    let mut strand = Strand::begin(plan, process, place);
    loop {
        match strand.step(plan) {
            Stepped::Silent => {}
            Stepped::Event(_) => {}
            Stepped::Ended => return strand.place(),
        }
    }
}
