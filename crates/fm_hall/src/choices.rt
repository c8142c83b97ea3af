//! The step that brings a run nearer to its end: eight rules, each at the least process it fits.
ghost use Rattle.std.specs.Prelude.{◌≡◌, ◌<◌, ◌≤◌, ℕ, length, true, Some};
ghost use Rattle.fm_core.specs.Invariant.{Sound, ValidSetting};
ghost use Rattle.fm_core.specs.Numbers.{find_below};
ghost use Rattle.fm_core.specs.State.{cell, desk};
ghost use Rattle.fm_core.specs.Steps.{unvisited};
ghost use Rattle.fm_core.specs.Tags as words;
ghost use Rattle.fm_progress.specs.Left.{can_lower, waits_for_visit, workable};
ghost use Rattle.fm_progress.specs.NextStep.{claims, gives_back, lowers, next_step, releases, startable, starts, sweeps, visits, works};

use crate::searches::{
    computes_next, first_held, first_lowering, first_starting, first_unvisited, first_waiting,
    first_working, has_finished, has_stale_sweep,
};
use fm_core::Step;
use fm_state::{Rules, Tables, must_be_taken, time_at};

// A record of a held process, or its give with the next event where that may be computed.
fn lowering(rules: &Rules, tables: &Tables, process: u32) -> Step
    requires sound { Sound rules.now tables.now.state }
    requires process { process < length tables.now.state.cells }
    requires held { words.is_held (cell tables.now.state process).tag ≡ true }
    ensures { Some result ≡ lowers rules.now tables.now.state (Some process) }
{
    let own = rules.line(process);
    let from = tables.cell(process);
    if from.tag.is_out() && !from.recorded {
        return Step::Record {
            seat: from.seat,
            process,
        };
    }
    let computed = if computes_next(rules, tables, process) {
        1
    } else {
        0
    };
    let next = from.computed as usize + computed as usize;
    Step::Give {
        seat: from.seat,
        process,
        taken: must_be_taken(rules, tables, from.seat, process),
        computed,
        clock: time_at(own, next),
        ended: next == own.events.as_slice().len(),
    }
}

// A give of a held process as it is.
fn giving_back(rules: &Rules, tables: &Tables, process: u32) -> Step
    requires sound { Sound rules.now tables.now.state }
    requires process { process < length tables.now.state.cells }
    ensures { Some result ≡ gives_back rules.now tables.now.state (Some process) }
{
    let from = tables.cell(process);
    Step::Give {
        seat: from.seat,
        process,
        taken: must_be_taken(rules, tables, from.seat, process),
        computed: 0,
        clock: from.clock,
        ended: from.tag.is_ended(),
    }
}

// The release of what is gathered, once all is visited and it is something or there is no work.
fn releasing(rules: &Rules, tables: &Tables) -> Option<Step>
    requires valid { ValidSetting rules.now }
    requires sound { Sound rules.now tables.now.state }
    ensures { result ≡ releases rules.now tables.now.state }
{
    if !tables.due().is_due() || tables.misses_a_visit() {
        return None;
    }
    let count = tables.gathered();
    if 0 < count || first_working(rules, tables).is_none() {
        return Some(Step::Release {
            count: count as u32,
        });
    }
    None
}

// A claim by seat 0 of a process with work, or before it a pace.
fn working(tables: &Tables, process: u32) -> Step
    requires { 0 < length tables.now.state.desks }
    ensures { Some result ≡ works tables.now.state (Some process) }
{
    if tables.paced(0).is_same(tables.floor()) {
        Step::Claim { seat: 0, process }
    } else {
        Step::Pace { seat: 0 }
    }
}

// A claim of the least unvisited process, a look at it, or a look that comes nearer to it.
fn visiting(tables: &Tables) -> Option<Step>
    requires { 0 < length tables.now.state.desks }
    ensures { result ≡ visits tables.now.state
        (find_below (length tables.now.state.cells) (unvisited tables.now.state)) }
{
    let process = first_unvisited(tables)?;
    if !tables.due().is_due() {
        return None;
    }
    if !tables.cell(process).tag.has_nothing() {
        return Some(Step::Claim { seat: 0, process });
    }
    let next = tables.sweep(0).len();
    if process == 0 || process as usize + 1 == next {
        return Some(Step::Look { seat: 0, process });
    }
    if (process as usize) < next {
        return Some(Step::Look {
            seat: 0,
            process: 0,
        });
    }
    Some(Step::Look {
        seat: 0,
        process: next as u32,
    })
}

// A look that begins the sweep anew or goes on with it, or its publish.
fn sweeping(rules: &Rules, tables: &Tables) -> Step
    requires valid { ValidSetting rules.now }
    requires sound { Sound rules.now tables.now.state }
    ensures { result ≡ sweeps rules.now tables.now.state }
{
    if has_stale_sweep(rules, tables) {
        return Step::Look {
            seat: 0,
            process: 0,
        };
    }
    let next = tables.sweep(0).len();
    if next < tables.processes() as usize {
        return Step::Look {
            seat: 0,
            process: next as u32,
        };
    }
    Step::Publish
}

/// The step that brings the run nearer to its end; none where all is released and drained.
pub(crate) fn chosen_step(rules: &Rules, tables: &Tables) -> Option<Step>
    requires valid { ValidSetting rules.now }
    requires sound { Sound rules.now tables.now.state }
    ensures { result ≡ next_step rules.now tables.now.state }
{
    if has_finished(rules, tables) {
        return None;
    }
    if let Some(process) = first_lowering(rules, tables) {
        return Some(lowering(rules, tables, process));
    }
    if let Some(process) = first_held(tables) {
        return Some(giving_back(rules, tables, process));
    }
    if let Some(step) = releasing(rules, tables) {
        return Some(step);
    }
    if let Some(process) = first_starting(rules, tables) {
        return Some(Step::Start { seat: 0, process });
    }
    if let Some(process) = first_working(rules, tables) {
        return Some(working(tables, process));
    }
    if let Some(process) = first_waiting(rules, tables) {
        return Some(Step::Claim { seat: 0, process });
    }
    if let Some(step) = visiting(tables) {
        return Some(step);
    }
    Some(sweeping(rules, tables))
}
