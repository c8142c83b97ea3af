//! A tick in the levels that are open where a process starts.
ghost use Rattle.std.specs.Prelude.{◌≡◌, ◌<◌, ◌≤◌, length, IfOk};
ghost use Rattle.fm_position.specs.Levels.{IsPosition};
ghost use Rattle.fm_position.specs.PositionLine.{position_text};
ghost use Rattle.fm_position.specs.Told.{IsLocated};
ghost use Rattle.fm_tick.specs.declared.tick.TheConstants.{MAX_TICK};

use crate::Position;
use fm_locate::locate;
use fm_play::start_of;
use fm_program::Plan;
use fm_strand::Strand;
use std::alloc::{AllocError, Global};

/// Where the tick `tick` of the file lies in the levels that are open where a process starts. It
/// runs the processes before that one, and plays nothing.
pub fn locate_in(
    alloc: Global,
    plan: &Plan,
    process: u32,
    tick: u64,
) -> Result<Position, AllocError>
    requires process { process < length plan.now.programs }
    requires in_time { tick ≤ MAX_TICK }
    ensures position { IfOk result (IsPosition plan.now process tick) }
    ensures told { IfOk result (λ p. IsLocated plan.now process tick (position_text p)) }
{
    let levels = plan.program(process).levels.as_slice();
    let place = start_of(alloc, plan, process)?;
    let strand = Strand::begin(plan, process, &place);
    Ok(Position {
        process,
        depth: place.depth,
        start: strand.clock(),
        located: locate(levels, plan.warps(), &place, tick),
    })
}
