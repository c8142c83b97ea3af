//! What each rule for the next step looks for: the least process that it fits.
ghost use Rattle.std.specs.Prelude.{◌≡◌, ◌<◌, length, not, nat_lt, true};
ghost use Rattle.fm_core.specs.Invariant.{Sound, ValidSetting};
ghost use Rattle.fm_core.specs.Numbers.{any_below, find_below};
ghost use Rattle.fm_core.specs.State.{cell};
ghost use Rattle.fm_core.specs.Steps.{unvisited};
ghost use Rattle.fm_core.specs.Tags as words;
ghost use Rattle.fm_progress.specs.Left.{any_stale, can_lower, changed_in, may_compute, ready, waits_for_visit, workable};
ghost use Rattle.fm_progress.specs.NextStep.{is_finished, startable};

use crate::refusals::is_waiting;
use fm_core::{Cell, Sight};
use fm_line::Line;
use fm_state::{Rules, Tables, due_among, must_be_taken, sight_of, time_at, waiting_events};

// Whether the clock has come to the next event, or to the end where none is left.
fn is_ready(own: &Line, from: Cell) -> bool
    ensures { result ≡ ready own.now from }
{
    !from.tag.is_unborn() && from.clock == time_at(own, from.computed as usize)
}

// Whether an event is left to compute.
fn has_events_left(own: &Line, from: Cell) -> bool
    ensures { result ≡ nat_lt from.computed (length own.now.events) }
{
    (from.computed as usize) < own.events.as_slice().len()
}

// Whether there is work at a process.
fn has_work(rules: &Rules, tables: &Tables, process: u32) -> bool
    requires lined { length tables.now.state.cells ≡ length rules.now.lines }
    requires process { process < length tables.now.state.cells }
    ensures { result ≡ workable rules.now tables.now.state process }
{
    let own = rules.line(process);
    let from = tables.cell(process);
    from.tag.is_at_hand()
        && (!is_ready(own, from)
            || !has_events_left(own, from)
            || from.tag.is_home()
                && tables
                    .floor()
                    .is_within(rules.lead(), time_at(own, from.computed as usize)))
}

/// Whether the next event of a held process may be computed in this hold.
pub(crate) fn computes_next(rules: &Rules, tables: &Tables, process: u32) -> bool
    requires sound { Sound rules.now tables.now.state }
    requires process { process < length tables.now.state.cells }
    requires held { words.is_held (cell tables.now.state process).tag ≡ true }
    ensures { result ≡ may_compute rules.now tables.now.state process }
{
    let own = rules.line(process);
    let from = tables.cell(process);
    let must = must_be_taken(rules, tables, from.seat, process);
    let paced = tables.paced(from.seat);
    has_events_left(own, from)
        && (paced.is_within(rules.lead(), time_at(own, from.computed as usize))
            && (from.computed as u64) < rules.room() as u64 + from.taken as u64 + must as u64)
}

// Whether an allowed record or give of a process lowers what is owed.
fn lowers_owed(rules: &Rules, tables: &Tables, process: u32) -> bool
    requires sound { Sound rules.now tables.now.state }
    requires process { process < length tables.now.state.cells }
    ensures { result ≡ can_lower rules.now tables.now.state process }
{
    let own = rules.line(process);
    let from = tables.cell(process);
    if !from.tag.is_held() {
        return false;
    }
    if 0 < must_be_taken(rules, tables, from.seat, process) {
        return true;
    }
    from.tag.is_out()
        && (!from.recorded
            || !is_ready(own, from)
            || !has_events_left(own, from)
            || computes_next(rules, tables, process))
}

// Whether a due event waits in the outbox of a process that was not visited.
fn has_due_waiting(rules: &Rules, tables: &Tables, process: u32) -> bool
    requires sound { Sound rules.now tables.now.state }
    requires process { process < length tables.now.state.cells }
    ensures { result ≡ waits_for_visit rules.now tables.now.state process }
{
    if tables.is_visited(process) {
        return false;
    }
    0 < due_among(tables.due(), waiting_events(rules, tables, process))
}

/// The least process of which a record or a give lowers what is owed.
pub(crate) fn first_lowering(rules: &Rules, tables: &Tables) -> Option<u32>
    requires { Sound rules.now tables.now.state }
    ensures { result ≡ find_below (length tables.now.state.cells)
        (can_lower rules.now tables.now.state) }
{
    for process in 0..tables.processes() {
        if lowers_owed(rules, tables, process) {
            return Some(process);
        }
    }
    None
}

/// The least process that is held.
pub(crate) fn first_held(tables: &Tables) -> Option<u32>
    ensures { result ≡ find_below (length tables.now.state.cells)
        (λ p. words.is_held (cell tables.now.state p).tag) }
{
    for process in 0..tables.processes() {
        if tables.cell(process).tag.is_held() {
            return Some(process);
        }
    }
    None
}

// Whether a process is unborn and its predecessors are all ended.
fn can_start(rules: &Rules, tables: &Tables, process: u32) -> bool
    requires lined { length tables.now.state.cells ≡ length rules.now.lines }
    requires process { process < length tables.now.state.cells }
    ensures { result ≡ startable rules.now tables.now.state process }
{
    tables.cell(process).tag.is_unborn() && !is_waiting(rules, tables, process)
}

/// The least process that can start.
pub(crate) fn first_starting(rules: &Rules, tables: &Tables) -> Option<u32>
    requires { length tables.now.state.cells ≡ length rules.now.lines }
    ensures { result ≡ find_below (length tables.now.state.cells)
        (startable rules.now tables.now.state) }
{
    for process in 0..tables.processes() {
        if can_start(rules, tables, process) {
            return Some(process);
        }
    }
    None
}

/// The least process with work.
pub(crate) fn first_working(rules: &Rules, tables: &Tables) -> Option<u32>
    requires { length tables.now.state.cells ≡ length rules.now.lines }
    ensures { result ≡ find_below (length tables.now.state.cells)
        (workable rules.now tables.now.state) }
{
    for process in 0..tables.processes() {
        if has_work(rules, tables, process) {
            return Some(process);
        }
    }
    None
}

/// The least unvisited process with a due event in its outbox.
pub(crate) fn first_waiting(rules: &Rules, tables: &Tables) -> Option<u32>
    requires { Sound rules.now tables.now.state }
    ensures { result ≡ find_below (length tables.now.state.cells)
        (waits_for_visit rules.now tables.now.state) }
{
    for process in 0..tables.processes() {
        if has_due_waiting(rules, tables, process) {
            return Some(process);
        }
    }
    None
}

/// The least process that was not visited.
pub(crate) fn first_unvisited(tables: &Tables) -> Option<u32>
    ensures { result ≡ find_below (length tables.now.state.cells) (unvisited tables.now.state) }
{
    for process in 0..tables.processes() {
        if !tables.is_visited(process) {
            return Some(process);
        }
    }
    None
}

// Whether all processes are drained.
fn all_drained(tables: &Tables) -> bool
    ensures { result ≡ not (any_below (length tables.now.state.cells)
        (λ p. not (words.is_drained (cell tables.now.state p).tag))) }
{
    for process in 0..tables.processes() {
        if !tables.cell(process).tag.is_drained() {
            return false;
        }
    }
    true
}

/// Whether all is released and drained. Of a sound state it is enough that nothing is gathered.
pub(crate) fn has_finished(rules: &Rules, tables: &Tables) -> bool
    requires valid { ValidSetting rules.now }
    requires sound { Sound rules.now tables.now.state }
    ensures { result ≡ is_finished rules.now tables.now.state }
{
    tables.gathered() == 0 && all_drained(tables)
}

// Whether a look at a process would enter something else than the sweep has of it.
fn has_changed(rules: &Rules, tables: &Tables, sweep: &[Sight], process: u32) -> bool
    requires lined { length tables.now.state.cells ≡ length rules.now.lines }
    requires process { process < length tables.now.state.cells }
    requires seen { process < length sweep.now }
    ensures { result ≡ changed_in rules.now tables.now.state sweep.now process }
{
    let seen = sweep[process as usize];
    let now = sight_of(rules, tables, sweep, process);
    seen.clock != now.clock || seen.ended != now.ended
}

/// Whether the sweep of seat 0 is not fresh any more.
pub(crate) fn has_stale_sweep(rules: &Rules, tables: &Tables) -> bool
    requires valid { ValidSetting rules.now }
    requires sound { Sound rules.now tables.now.state }
    ensures { result ≡ any_stale rules.now tables.now.state }
{
    let sweep = tables.sweep(0);
    for i in 0..sweep.len() {
        if has_changed(rules, tables, sweep, i as u32) {
            return true;
        }
    }
    false
}
