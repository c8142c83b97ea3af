//! What is due, and what must be taken.
ghost use Rattle.std.specs.Prelude.{◌≡◌, ◌<◌, ◌≤◌, length};
ghost use Rattle.fm_line.specs.Line.{line};
ghost use Rattle.fm_core.specs.State.{cell};
ghost use Rattle.fm_core.specs.Taking.{count_due, outbox, must_take};
ghost use Rattle.fm_core.specs.Invariant.{Sound};
ghost use Rattle.fm_buffer.specs.declared.outbox.TheConstants.{MAX_ROOM};

use crate::rules::Rules;
use crate::tables::Tables;
use fm_core::Due;
use fm_msg::Event;

/// How many of these events are due.
pub fn due_among(due: Due, events: &[Event]) -> u32
    requires { length events.now ≤ MAX_ROOM }
    ensures { result ≡ count_due due events.now }
{
    let mut count = 0;
    for event in events {
        if due.covers(event) {
            count += 1;
        }
    }
    count
}

/// The events of a process that are computed and not taken.
pub fn waiting_events<'a>(rules: &'a Rules, tables: &Tables, process: u32) -> &'a [Event]
    requires sound { Sound rules.now tables.now.state }
    requires process { process < length tables.now.state.cells }
    ensures value { result.now
        ≡ outbox (line rules.now.lines process) (cell tables.now.state process) }
    ensures few { length result.now ≤ MAX_ROOM }
{
    let from = tables.cell(process);
    let events = rules.line(process).events.as_slice();
    &events[from.taken as usize..from.computed as usize]
}

/// How many events a give by this seat must take of this process.
pub fn must_be_taken(rules: &Rules, tables: &Tables, seat: u32, process: u32) -> u32
    requires sound { Sound rules.now tables.now.state }
    requires process { process < length tables.now.state.cells }
    ensures { result ≡ must_take rules.now tables.now.state seat process }
{
    if seat != 0 || tables.is_visited(process) {
        return 0;
    }
    due_among(tables.due(), waiting_events(rules, tables, process))
}
