//! The state of the core in vectors whose memory is taken once.
ghost use Rattle.std.specs.Prelude.{◌≡◌, ◌+◌, ◌<◌, ◌≤◌, ◌++◌, [], length, map, IfOk, true, replicate, slice_set, vec_len, vec_capacity};
ghost use Rattle.fm_line.specs.Piece.{sorted, Ordered};
ghost use Rattle.fm_core.specs.State.{cell, desk, visited, no_desk, opening};
ghost use Rattle.fm_core.specs.Effects.{with_cell, with_desk, published};
ghost use Rattle.fm_core.specs.Numbers.{any_below};
ghost use Rattle.fm_core.specs.Steps.{holding, unvisited};
ghost use Rattle.fm_core.specs.Sweep.{least, swept};
ghost use Rattle.fm_core.specs.declared.due.Due.TheVariants.{Nothing};
ghost use Rattle.fm_state.specs.Stored.{Stored, desk_of, IsDesk, AreDesks};

use crate::desk::Desk;
use crate::holds::{begin_hold, end_hold};
use crate::visits::Visits;
use fm_buffer::Gather;
use fm_core::{Cell, Due, Floor, Sight, Tag, lesser_pair};
use fm_msg::Event;
use std::alloc::{AllocError, Global};
use std::marker::Model;

const UNBORN: Cell = Cell {
    tag: Tag::Unborn,
    clock: 0,
    seat: 0,
    computed: 0,
    taken: 0,
    recorded: false,
};

/// The state of the core. No call but `new` takes memory.
#[derive(Drop)]
pub struct Tables {
    cells: Vec<Cell>,
    floor: Floor,
    desks: Vec<Desk>,
    // How many processes each seat holds.
    holds: Vec<u32>,
    due: Due,
    visited: Visits,
    gather: Gather,
    released: Vec<Event>,
}

impl Model for Tables {
    ghost use Rattle.std.specs.Prelude.{length, map, vec_capacity};
    ghost use Rattle.fm_state.specs.Stored.{Stored, desk_of, IsTables};

    ghost Value = { Stored };

    ghost view = { λ t. record {
      state = record {
        cells = t.cells.items;
        floor = t.floor;
        desks = map desk_of t.desks.items;
        due = t.due;
        visited = t.visited;
        gather = t.gather.events;
        released = t.released.items;
      };
      gathers = t.gather.capacity;
      releases = vec_capacity t.released;
    } };

    ghost invariant = { λ t.
        IsTables t.cells.items (length t.visited) t.desks.items t.holds.items };
}

impl Tables {
    /// The opening: process 0 at home, all others unborn, all sweeps empty. There is memory for
    /// so many gathered and so many released events, and for whole sweeps.
    pub fn new(
        alloc: Global,
        processes: u32,
        seats: u32,
        gathers: usize,
        releases: usize,
    ) -> Result<Tables, AllocError>
        requires { 0 < processes }
        ensures { IfOk result (λ tables. tables ≡ record {
          state = opening processes seats;
          gathers = gathers;
          releases = releases;
        }) }
    {
        let mut cells = vec![in alloc; UNBORN; processes as usize]?;
        cells[0].tag = Tag::Home;
        let visited = Visits::new(alloc, processes)?;
        let gather = Gather::new(alloc, gathers)?;
        let released = Vec::with_capacity(alloc, releases)?;
        let desks = empty_desks(alloc, processes, seats)?;
        let holds = vec![in alloc; 0; seats as usize]?;
        Ok(Tables {
            cells,
            floor: Floor::At(0),
            desks,
            holds,
            due: Due::Nothing,
            visited,
            gather,
            released,
        })
    }

    /// How many processes there are.
    pub fn processes(&self) -> u32
        ensures { result ≡ length self.now.state.cells }
    {
        self.cells.len() as u32
    }

    /// How many seats there are.
    pub fn seats(&self) -> u32
        ensures { result ≡ length self.now.state.desks }
    {
        self.desks.len() as u32
    }

    /// Whether a seat holds a process: one look at what is counted.
    pub fn is_holding(&self, seat: u32) -> bool
        requires { seat < length self.now.state.desks }
        ensures { result ≡ holding self.now.state seat }
    {
        0 < self.holds[seat as usize]
    }

    /// How far a process is.
    pub fn cell(&self, process: u32) -> Cell
        requires { process < length self.now.state.cells }
        ensures { result ≡ cell self.now.state process }
    {
        self.cells[process as usize]
    }

    /// The floor.
    pub fn floor(&self) -> Floor
        ensures { result ≡ self.now.state.floor }
    {
        self.floor
    }

    /// What is due.
    pub fn due(&self) -> Due
        ensures { result ≡ self.now.state.due }
    {
        self.due
    }

    /// Whether a process was visited since the last publish.
    pub fn is_visited(&self, process: u32) -> bool
        requires { process < length self.now.state.cells }
        ensures { result ≡ visited self.now.state process }
    {
        self.visited.has(process)
    }

    /// Whether some process was not visited since the last publish: one look at what is counted.
    pub fn misses_a_visit(&self) -> bool
        ensures { result ≡ any_below (length self.now.state.cells) (unvisited self.now.state) }
    {
        self.visited.misses_one()
    }

    /// The looks of a seat's sweep.
    pub fn sweep(&self, seat: u32) -> &[Sight]
        requires { seat < length self.now.state.desks }
        ensures { result.now ≡ (desk self.now.state seat).sweep }
    {
        self.desks[seat as usize].sweep.as_slice()
    }

    /// The least clock and process of a seat's sweep over the processes that were not seen ended.
    pub fn least(&self, seat: u32) -> Option<(u64, u32)>
        requires { seat < length self.now.state.desks }
        ensures { result ≡ least (desk self.now.state seat).sweep }
    {
        self.desks[seat as usize].least
    }

    /// The floor that a seat last paced.
    pub fn paced(&self, seat: u32) -> Floor
        requires { seat < length self.now.state.desks }
        ensures { result ≡ (desk self.now.state seat).paced }
    {
        self.desks[seat as usize].paced
    }

    /// How many events are gathered.
    pub fn gathered(&self) -> usize
        ensures { result ≡ length self.now.state.gather }
    {
        self.gather.events().len()
    }

    /// The events that are released, in their order.
    pub fn released(&self) -> &[Event]
        ensures { result.now ≡ self.now.state.released }
    {
        self.released.as_slice()
    }

    /// Writes down how far a process is.
    pub fn set_cell(&mut self, process: u32, next: Cell)
        requires { process < length self.old.state.cells }
        ensures { self.new ≡ record self.old { state = with_cell self.old.state process next } }
    {
        let from = self.cells[process as usize];
        self.cells[process as usize] = next;
        end_hold(&mut self.holds, from);
        begin_hold(&mut self.holds, next);
    }

    /// Notes that a process was visited.
    pub fn visit(&mut self, process: u32)
        requires { process < length self.old.state.cells }
        ensures { self.new ≡ record self.old {
          state = record self.old.state { visited = slice_set self.old.state.visited process true };
        } }
    {
        self.visited.add(process);
    }

    /// Enters a look in a seat's sweep.
    pub fn enter(&mut self, seat: u32, process: u32, sight: Sight)
        requires seat { seat < length self.old.state.desks }
        requires process { process < length self.old.state.cells }
        ensures { self.new ≡ record self.old {
          state = with_desk self.old.state seat
              (record (desk self.old.state seat) {
                sweep = swept (desk self.old.state seat).sweep process sight;
              });
        } }
    {
        enter_sight(&mut self.desks[seat as usize], process, sight);
    }

    /// Writes down the floor as the one that a seat last paced.
    pub fn pace(&mut self, seat: u32)
        requires { seat < length self.old.state.desks }
        ensures { self.new ≡ record self.old {
          state = with_desk self.old.state seat
              (record (desk self.old.state seat) { paced = self.old.state.floor });
        } }
    {
        self.desks[seat as usize].paced = self.floor;
    }

    /// Makes a least pair the floor, and due; without one all is due. Nothing is visited then, and
    /// the sweep of seat 0 is empty.
    pub fn publish(&mut self, least: Option<(u64, u32)>)
        requires { 0 < length self.old.state.desks }
        ensures { self.new ≡ record self.old { state = published self.old.state least } }
    {
        match least {
            Some((time, process)) => {
                self.floor = Floor::At(time);
                self.due = Due::Pair { time, process };
            }
            None => {
                self.floor = Floor::Done;
                self.due = Due::Everything;
            }
        }
        clear_sweep(&mut self.desks[0]);
        self.visited.forget();
    }

    /// Appends events to the gather.
    pub fn take(&mut self, events: &[Event])
        requires { length self.old.state.gather + length events.now ≤ self.old.gathers }
        ensures { self.new ≡ record self.old {
          state = record self.old.state { gather = self.old.state.gather ++ events.now };
        } }
    {
        gather_all(&mut self.gather, events);
    }

    /// Appends what is gathered, in its order, to what is released.
    pub fn release(&mut self)
        requires room { length self.old.state.released + length self.old.state.gather
            ≤ self.old.releases }
        requires ordered { Ordered self.old.state.gather }
        ensures { self.new ≡ record self.old {
          state = record self.old.state {
            due = Nothing;
            gather = [];
            released = self.old.state.released ++ sorted self.old.state.gather;
          };
        } }
    {
        settle_all(&mut self.gather);
        release_all(&mut self.released, self.gather.events());
        self.gather.clear();
        self.due = Due::Nothing;
    }
}

// So many empty sweeps, each with memory for all processes.
fn empty_desks(alloc: Global, processes: u32, seats: u32) -> Result<Vec<Desk>, AllocError>
    ensures desks { IfOk result (λ desks. map desk_of desks.items ≡ replicate seats no_desk) }
    ensures sweeps { IfOk result (λ desks. AreDesks processes desks.items) }
{
    let mut desks = Vec::with_capacity(alloc, seats as usize)?;
    for _ in 0..seats {
        desks.push(empty_desk(alloc, processes)?)?;
    }
    Ok(desks)
}

// An empty sweep with memory for all processes.
fn empty_desk(alloc: Global, processes: u32) -> Result<Desk, AllocError>
    ensures desk { IfOk result (λ desk. desk_of desk ≡ no_desk) }
    ensures sweep { IfOk result (λ desk. IsDesk processes desk) }
{
    let sweep = Vec::with_capacity(alloc, processes as usize)?;
    Ok(Desk {
        sweep,
        least: None,
        paced: Floor::At(0),
    })
}

// Enters a look in a sweep.
fn enter_sight(desk: &mut Desk, process: u32, sight: Sight)
    requires memory { process < vec_capacity desk.old.sweep }
    requires least { desk.old.least ≡ least desk.old.sweep.items }
    ensures desk { desk_of desk.new ≡ record (desk_of desk.old) {
      sweep = swept desk.old.sweep.items process sight;
    } }
    ensures least { desk.new.least ≡ least desk.new.sweep.items }
    ensures capacity { vec_capacity desk.new.sweep ≡ vec_capacity desk.old.sweep }
{
    let pair = sight.pair(process);
    if process == 0 {
        desk.sweep.clear();
        desk.sweep.push_reserved(sight);
        desk.least = pair;
    } else if process as usize == desk.sweep.len() {
        desk.sweep.push_reserved(sight);
        desk.least = lesser_pair(desk.least, pair);
    }
}

// Leaves a sweep without looks.
fn clear_sweep(desk: &mut Desk)
    ensures desk { desk_of desk.new ≡ record (desk_of desk.old) { sweep = [] } }
    ensures least { desk.new.least ≡ least desk.new.sweep.items }
    ensures capacity { vec_capacity desk.new.sweep ≡ vec_capacity desk.old.sweep }
{
    desk.sweep.clear();
    desk.least = None;
}

// Appends events to a gather.
fn gather_all(gather: &mut Gather, events: &[Event])
    requires { length gather.old.events + length events.now ≤ gather.old.capacity }
    ensures { gather.new ≡ record gather.old { events = gather.old.events ++ events.now } }
{
    for event in events {
        gather.put(*event);
    }
}

// Puts gathered events into their order.
fn settle_all(gather: &mut Gather)
    requires { Ordered gather.old.events }
    ensures order { gather.new ≡ record gather.old { events = sorted gather.old.events } }
    ensures many { length gather.new.events ≡ length gather.old.events }
{
    gather.settle();
}

// Appends events to those that are released.
fn release_all(released: &mut Vec<Event>, events: &[Event])
    requires { length released.old.items + length events.now ≤ vec_capacity released.old }
    ensures items { released.new.items ≡ released.old.items ++ events.now }
    ensures capacity { vec_capacity released.new ≡ vec_capacity released.old }
{
    for event in events {
        released.push_reserved(*event);
    }
}
