//! Whether lines are valid: the test for what `Hall::open` asks of them.
ghost use Rattle.std.specs.Prelude.{◌≡◌, ◌<◌, ◌↔◌, ◌&&◌, length, nat_eq, nat_le, nat_lt, IsTrue};
ghost use Rattle.std.specs.List.{list_all};
ghost use Rattle.fm_line.specs.Line.{ValidLines, line, total};
ghost use Rattle.fm_line.specs.declared.limits.TheConstants.{MAX_EVENTS};
ghost use Rattle.fm_line.specs.Validity.{all_once, each_below, has_number};
ghost use Rattle.fm_line.specs.Validity.{line_valid, lines_valid, run_valid};

use fm_line::{LAST_TICK, Line, MAX_EVENTS, MAX_PROCESSES, validity_is_a_test};
use fm_msg::Event;
use fm_state::greatest_end;

/// Whether lines are valid, as `Hall::open` asks: each process after the first waits for smaller
/// ones, its events are numbered, and their times rise from its start to its end.
pub fn are_valid(lines: &[Line]) -> bool
    ensures value { result ≡ lines_valid lines.now }
    ensures valid { IsTrue result ↔ ValidLines lines.now }
{
    validity_is_a_test();
    do_pass(lines)
}

// Whether lines pass each test.
fn do_pass(lines: &[Line]) -> bool
    ensures { result ≡ lines_valid lines.now }
{
    !lines.is_empty()
        && lines.len() <= MAX_PROCESSES as usize
        && lines[0].predecessors.as_slice().is_empty()
        && all_fit(lines)
        && have_few_events(lines)
}

// Whether the lines have no more events together than they may.
fn have_few_events(lines: &[Line]) -> bool
    ensures { result ≡ nat_le (total lines.now) MAX_EVENTS }
{
    let mut count = 0;
    for i in 0..lines.len() {
        let more = events_of(lines, i).len();
        let space = MAX_EVENTS as usize - count;
        if space < more {
            return false;
        }
        count += more;
    }
    true
}

// The events of the line of a process.
fn events_of(lines: &[Line], process: usize) -> &[Event]
    requires { process < length lines.now }
    ensures { result.now ≡ (line lines.now process).events }
{
    lines[process].events.as_slice()
}

// Whether each line is as it must be among the others.
fn all_fit(lines: &[Line]) -> bool
    requires { 0 < length lines.now }
    ensures { result ≡ each_below (length lines.now) (line_valid lines.now) }
{
    for i in 0..lines.len() {
        if !does_fit(lines, i) {
            return false;
        }
    }
    true
}

// Whether the line of a process is as it must be among the others.
fn does_fit(lines: &[Line], process: usize) -> bool
    requires { process < length lines.now }
    ensures { result ≡ line_valid lines.now process }
{
    let own = &lines[process];
    let predecessors = own.predecessors.as_slice();
    let events = own.events.as_slice();
    (process == 0 || !predecessors.is_empty())
        && are_all_below(process, predecessors)
        && are_all_apart(predecessors)
        && is_run(process, greatest_end(lines, predecessors), own.end, events)
        && own.end <= LAST_TICK
        && own.end <= lines[lines.len() - 1].end
}

// Whether each of these has a smaller number.
fn are_all_below(process: usize, predecessors: &[u32]) -> bool
    ensures { result ≡ list_all (λ q. nat_lt q process) predecessors.now }
{
    for predecessor in predecessors {
        if process <= *predecessor as usize {
            return false;
        }
    }
    true
}

// Whether none of these is named twice.
fn are_all_apart(predecessors: &[u32]) -> bool
    ensures { result ≡ all_once predecessors.now }
{
    for i in 0..predecessors.len() {
        if has(predecessors[i], &predecessors[i + 1..]) {
            return false;
        }
    }
    true
}

// Whether a process is among these.
fn has(process: u32, among: &[u32]) -> bool
    ensures { result ≡ has_number process among.now }
{
    for other in among {
        if *other == process {
            return true;
        }
    }
    false
}

// Whether the events are of this process, numbered from 0 on, and their times never fall and lie
// from this tick to the end.
fn is_run(process: usize, from: u64, end: u64, events: &[Event]) -> bool
    ensures { result ≡ run_valid from end process 0 events.now }
{
    let mut low = from;
    for i in 0..events.len() {
        let event = &events[i];
        if !is_next(process, i, low, event) {
            return false;
        }
        low = event.time();
    }
    low <= end
}

// Whether the event is of this process and this index, and not before this tick.
fn is_next(process: usize, index: usize, low: u64, event: &Event) -> bool
    ensures { result ≡ (nat_le low event.now.time && nat_eq event.now.process process
        && nat_eq event.now.index index) }
{
    low <= event.time() && event.process() as usize == process && event.index() as usize == index
}
