//! What never changes in a run.
ghost use Rattle.std.specs.Prelude.{◌≡◌, ◌<◌, ◌≤◌, length, All};
ghost use Rattle.fm_line.specs.Line.{line, upper};
ghost use Rattle.fm_core.specs.State.{Setting};
ghost use Rattle.fm_state.specs.Limits.{IsSetting};

use fm_line::Line;
use std::marker::Model;

/// The lines, the room of an outbox in events, and the lead in ticks.
#[derive(Drop)]
pub struct Rules {
    lines: Vec<Line>,
    room: u32,
    lead: u64,
}

impl Model for Rules {
    ghost Value = { Setting };

    ghost view = { λ r. record { lines = r.lines.items; room = r.room; lead = r.lead } };

    ghost invariant = { λ r.
        IsSetting (record { lines = r.lines.items; room = r.room; lead = r.lead }) };
}

impl Rules {
    /// These lines under these limits.
    pub fn new(lines: Vec<Line>, room: u32, lead: u64) -> Rules
        requires { IsSetting (record { lines = lines.items; room = room; lead = lead }) }
        ensures { result ≡ record { lines = lines.items; room = room; lead = lead } }
    {
        Rules { lines, room, lead }
    }

    /// All lines.
    pub fn lines(&self) -> &[Line]
        ensures value { result.now ≡ self.now.lines }
        ensures setting { IsSetting self.now }
    {
        self.lines.as_slice()
    }

    /// The line of a process.
    pub fn line(&self, process: u32) -> &Line
        requires { process < length self.now.lines }
        ensures value { result.now ≡ line self.now.lines process }
        ensures setting { IsSetting self.now }
    {
        &self.lines[process as usize]
    }

    /// The predecessors of a process: processes with smaller numbers.
    pub fn predecessors(&self, process: u32) -> &[u32]
        requires { process < length self.now.lines }
        ensures value { result.now ≡ (line self.now.lines process).predecessors }
        ensures below { All (λ q. q < process) result.now }
    {
        self.lines[process as usize].predecessors.as_slice()
    }

    /// The room of an outbox, in events.
    pub fn room(&self) -> u32
        ensures { result ≡ self.now.room }
    {
        self.room
    }

    /// How far ahead of the floor events are computed, in ticks.
    pub fn lead(&self) -> u64
        ensures { result ≡ self.now.lead }
    {
        self.lead
    }
}

/// The time of the event at this index of the line, or its end where there is none.
pub fn time_at(own: &Line, index: usize) -> u64
    ensures { result ≡ upper own.now index }
{
    match own.events.as_slice().get(index) {
        Some(event) => event.time(),
        None => own.end,
    }
}
