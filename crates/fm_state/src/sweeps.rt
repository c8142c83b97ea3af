//! What a look sees.
ghost use Rattle.std.specs.Prelude.{◌≡◌, ◌<◌, length, map};
ghost use Rattle.fm_line.specs.Line.{line, greatest, start};
ghost use Rattle.fm_core.specs.State.{Setting};
ghost use Rattle.fm_core.specs.Sweep.{sighted};

use crate::rules::Rules;
use crate::tables::Tables;
use fm_core::Sight;
use fm_line::Line;

/// What a look at a process enters in this sweep.
pub fn sight_of(rules: &Rules, tables: &Tables, seen: &[Sight], process: u32) -> Sight
    requires process { process < length tables.now.state.cells }
    requires lined { length tables.now.state.cells ≡ length rules.now.lines }
    ensures { result ≡ sighted rules.now tables.now.state seen.now process }
{
    let own = tables.cell(process);
    Sight::of(own.tag, own.clock, seen, rules.predecessors(process))
}

/// The greatest end of these processes' lines, 0 of none.
pub fn greatest_end(lines: &[Line], processes: &[u32]) -> u64
    ensures { result ≡ greatest (map (λ q. (line lines.now q).end) processes.now) }
{
    let mut most = 0;
    for process in processes {
        most = most.max(end_of(lines, *process));
    }
    most
}

// The end of a process's line, 0 where there is no such process.
fn end_of(lines: &[Line], process: u32) -> u64
    ensures { result ≡ (line lines.now process).end }
{
    match lines.get(process as usize) {
        Some(own) => own.end,
        None => 0,
    }
}

/// The tick at which the line of a process starts.
pub fn start_of(rules: &Rules, process: u32) -> u64
    requires { process < length rules.now.lines }
    ensures { result ≡ start rules.now.lines process }
{
    greatest_end(rules.lines(), rules.predecessors(process))
}
