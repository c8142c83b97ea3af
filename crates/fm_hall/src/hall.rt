//! The scheduling core as a machine.
ghost use Rattle.std.specs.Prelude.{◌≡◌, ◌*◌, ◌<◌, ◌≤◌, ◌↔◌, length, IfOk, IfSome, IsNone};
ghost use Rattle.fm_line.specs.Line.{total};
ghost use Rattle.fm_line.specs.declared.limits.TheConstants.{MAX_EVENTS};
ghost use Rattle.fm_line.specs.Piece.{IsPrefix, piece};
ghost use Rattle.fm_core.specs.State.{desk, opening};
ghost use Rattle.fm_core.specs.Steps.{reason};
ghost use Rattle.fm_core.specs.Sweep.{least};
ghost use Rattle.fm_core.specs.Invariant.{Sound};
ghost use Rattle.fm_progress.specs.NextStep.{next_step};
ghost use Rattle.fm_progress.specs.Progress.{Finished, Nearer};
ghost use Rattle.fm_state.specs.Limits.{IsSetting};
ghost use Rattle.fm_hall.specs.Hall.{HallState, IsSafe, answer, stepped};

use crate::Taken;
use crate::choices::chosen_step;
use crate::effects::take_step;
use crate::refusals::why_not;
use fm_core::{Floor, MAX_SEATS, Step};
use fm_line::Line;
use fm_msg::Event;
use fm_state::{Rules, Tables};
use std::alloc::{AllocError, Global};
use std::marker::Model;

/// The state of processes, seats and released events, which one step changes at a time. Every
/// hall is sound.
#[derive(Drop)]
pub struct Hall {
    rules: Rules,
    tables: Tables,
}

impl Model for Hall {
    ghost use Rattle.fm_hall.specs.Hall.{HallState};
    ghost use Rattle.fm_state.specs.Stored.{IsHall};

    ghost Value = { HallState };

    ghost view = { λ h. record { setting = h.rules; state = h.tables.state } };

    ghost invariant = { λ h. IsHall h.rules h.tables };
}

impl Hall {
    /// The opening: process 0 at home, all others unborn. It takes the memory for the released
    /// list of all events, for a gather of processes times room and for each seat's sweep. The
    /// room is 1 to 64 events, the lead at most 1,000,000 ticks.
    pub fn open(
        alloc: Global,
        lines: Vec<Line>,
        seats: u32,
        room: u32,
        lead: u64,
    ) -> Result<Hall, AllocError>
        requires setting { IsSetting (record { lines = lines.items; room = room; lead = lead }) }
        requires seats { (1 ≤ seats) × (seats ≤ MAX_SEATS) }
        ensures { IfOk result (λ hall. hall ≡ record {
          setting = record { lines = lines.items; room = room; lead = lead };
          state = opening (length lines.items) seats;
        }) }
    {
        let processes = lines.len();
        let events = count_events(&lines);
        let tables = Tables::new(
            alloc,
            processes as u32,
            seats,
            processes * room as usize,
            events,
        )?;
        Ok(Hall {
            rules: Rules::new(lines, room, lead),
            tables,
        })
    }

    /// Takes the step where it is allowed, else gives the first reason that refuses it.
    pub fn step(&mut self, step: &Step) -> Taken
        ensures answer { result ≡ answer (reason self.old.setting self.old.state step.now) }
        ensures taken { result ≡ Taken.Taken → self.new ≡ stepped self.old step.now }
        ensures refused { (why : _) → result ≡ Taken.Refused why → self.new ≡ self.old }
        ensures sound { Sound self.new.setting self.new.state }
        ensures safe { IsSafe self.new.setting self.new.state }
    {
        match why_not(&self.rules, &self.tables, *step) {
            Some(why) => Taken::Refused(why),
            None => {
                take_step(&self.rules, &mut self.tables, *step);
                Taken::Taken
            }
        }
    }

    /// A step that `step` takes and that brings the run nearer to its end; none exactly where all
    /// events are released and all processes are drained.
    pub fn next_step(&self) -> Option<Step>
        ensures value { result ≡ next_step self.now.setting self.now.state }
        ensures none { IsNone result ↔ Finished self.now.setting self.now.state }
        ensures nearer { IfSome result (λ step. Nearer self.now.setting self.now.state step) }
    {
        chosen_step(&self.rules, &self.tables)
    }

    /// The events that are released, in the order of the piece.
    pub fn released(&self) -> &[Event]
        ensures value { result.now ≡ self.now.state.released }
        ensures prefix { IsPrefix result.now (piece self.now.setting.lines) }
    {
        self.tables.released()
    }

    /// The floor: no event still to be computed lies below it.
    pub fn floor(&self) -> Floor
        ensures { result ≡ self.now.state.floor }
    {
        self.tables.floor()
    }

    /// The least clock and process of a seat's complete sweep, over the processes not seen ended.
    pub fn least(&self, seat: u32) -> Option<(u64, u32)>
        requires seat { seat < length self.now.state.desks }
        requires complete { length (desk self.now.state seat).sweep ≡ length self.now.state.cells }
        ensures { result ≡ least (desk self.now.state seat).sweep }
    {
        self.tables.least(seat)
    }
}

// The number of all events.
fn count_events(lines: &[Line]) -> usize
    requires { total lines.now ≤ MAX_EVENTS }
    ensures { result ≡ total lines.now }
{
    let mut count = 0;
    for i in 0..lines.len() {
        count += lines[i].events.as_slice().len();
    }
    count
}
