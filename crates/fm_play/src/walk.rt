//! All processes of a plan, or those before one.
ghost use Rattle.std.specs.Prelude.{◌≡◌, ◌<◌, length, IfOk};
ghost use Rattle.fm_program.specs.Fit.{PartsFit};
ghost use Rattle.fm_program.specs.Process.{plan_lines};
ghost use Rattle.fm_strand.specs.Course.{start_place};

use crate::ends::start_from;
use crate::process::{end_of, line_of};
use fm_line::Line;
use fm_strand::{Place, Plan};
use std::alloc::{AllocError, Global};

/// The lines of a plan, in the order of its processes.
pub fn lines(alloc: Global, plan: &Plan) -> Result<Vec<Line>, AllocError>
    requires { PartsFit plan.now }
    ensures { IfOk result (λ lines. lines.items ≡ plan_lines plan.now) }
{
    let mut lines = Vec::new(alloc);
    let mut ends = Vec::new(alloc);
    for process in 0..plan.processes() {
        let place = start_from(plan, process, &ends);
        let (line, end) = line_of(alloc, plan, process, &place)?;
        lines.push(line)?;
        ends.push(end)?;
    }
    Ok(lines)
}

/// Where a process starts: its position, and the levels that are open there with their origins.
/// It runs the processes before it, one after the other, and keeps where each ends, but none of
/// its events.
pub fn start_of(alloc: Global, plan: &Plan, process: u32) -> Result<Place, AllocError>
    requires fits { PartsFit plan.now }
    requires process { process < length plan.now.programs }
    ensures { IfOk result (λ place. place ≡ start_place plan.now process) }
{
    let mut ends = Vec::new(alloc);
    for before in 0..process {
        let place = start_from(plan, before, &ends);
        ends.push(end_of(plan, before, &place))?;
    }
    Ok(start_from(plan, process, &ends))
}
