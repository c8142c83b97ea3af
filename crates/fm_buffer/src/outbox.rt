//! The events that a process has computed ahead.
ghost use Rattle.std.specs.Prelude.{◌≡◌, ◌+◌, ◌<◌, ◌≤◌, ◌↔◌, ◌++◌, ◌∷◌, [], length, take, drop, IsTrue, IfOk};
ghost use Rattle.fm_buffer.specs.Outbox.{EventQueue, IsWithinRoom, IsLongestThrough, is_through, count_through};

use crate::Gather;
use circular_buffer::HeapCircularBuffer;
use fm_msg::Event;
use std::alloc::{AllocError, Global};
use std::marker::{Model, Send, Sync};

/// The greatest room of an outbox, in events.
pub const MAX_ROOM: u32 = 64;

/// The events of a process that wait, oldest first. Its room, 1 to 64 events, never changes.
#[derive(Debug, Drop)]
pub struct Outbox {
    ring: HeapCircularBuffer<Event>,
}

impl Model for Outbox {
    ghost Value = { EventQueue };

    ghost view = { λ o. record { room = o.ring.capacity; events = o.ring.items } };

    ghost invariant = { λ o.
        IsWithinRoom (record { room = o.ring.capacity; events = o.ring.items }) };
}

impl Outbox {
    /// An empty one with memory for so many events.
    pub fn new(alloc: Global, room: u32) -> Result<Outbox, AllocError>
        requires { (1 ≤ room) × (room ≤ MAX_ROOM) }
        ensures { IfOk result (λ outbox. outbox ≡ record { room = room; events = [] }) }
    {
        let ring = HeapCircularBuffer::with_capacity(alloc, room as usize)?;
        Ok(Outbox { ring })
    }

    /// How many events wait.
    pub fn len(&self) -> u32
        ensures value { result ≡ length self.now.events }
        ensures bound { IsWithinRoom self.now }
    {
        self.ring.len() as u32
    }

    /// Whether as many events wait as there is room for.
    pub fn is_full(&self) -> bool
        ensures full { IsTrue result ↔ (length self.now.events ≡ self.now.room) }
        ensures bound { IsWithinRoom self.now }
    {
        self.ring.is_full()
    }

    /// Appends an event.
    pub fn put(&mut self, event: Event)
        requires { length self.old.events < self.old.room }
        ensures { self.new ≡ record self.old { events = self.old.events ++ event ∷ [] } }
    {
        self.ring.push_back(event);
    }

    /// Moves the longest prefix whose (time, process) is at most the key, or all events where
    /// there is no key, to the end of the gather, and says how many these are.
    pub fn take_through(&mut self, key: Option<(u64, u32)>, gather: &mut Gather) -> u32
        requires { length self.old.events + length gather.old.events ≤ gather.old.capacity }
        ensures count { result ≡ count_through key self.old.events }
        ensures longest { IsLongestThrough key self.old.events result }
        ensures rest { self.new ≡ record self.old { events = drop result self.old.events } }
        ensures taken { gather.new
            ≡ record gather.old { events = gather.old.events ++ take result self.old.events } }
    {
        let (front, back) = self.ring.as_slices();
        let taken = gather_both(key, front, back, gather);
        let left = self.ring.len() - taken;
        self.ring.truncate_front(left);
        taken as u32
    }
}

// Appends the longest prefix of two lists, one behind the other, with no event past the key, and
// says how many these are.
fn gather_both(
    key: Option<(u64, u32)>,
    front: &[Event],
    back: &[Event],
    gather: &mut Gather,
) -> usize
    requires room { length (front.now ++ back.now) + length gather.old.events
        ≤ gather.old.capacity }
    requires few { length (front.now ++ back.now) ≤ MAX_ROOM }
    ensures count { result ≡ count_through key (front.now ++ back.now) }
    ensures taken { gather.new ≡ record gather.old {
      events = gather.old.events ++ take result (front.now ++ back.now);
    } }
{
    let taken = gather_through(key, front, gather);
    if taken < front.len() {
        return taken;
    }
    taken + gather_through(key, back, gather)
}

// Appends the longest prefix of a list with no event past the key, and says how many these are.
fn gather_through(key: Option<(u64, u32)>, events: &[Event], gather: &mut Gather) -> usize
    requires { length events.now + length gather.old.events ≤ gather.old.capacity }
    ensures count { result ≡ count_through key events.now }
    ensures taken { gather.new
        ≡ record gather.old { events = gather.old.events ++ take result events.now } }
{
    for index in 0..events.len() {
        if !is_at_most(key, &events[index]) {
            return index;
        }
        gather.put(events[index]);
    }
    events.len()
}

// Whether the event's (time, process) is at most the key.
fn is_at_most(key: Option<(u64, u32)>, event: &Event) -> bool
    ensures { result ≡ is_through key event.now }
{
    match key {
        None => true,
        Some((time, process)) => {
            event.time() < time || (event.time() == time && event.process() <= process)
        }
    }
}

fn crosses_threads<T: Send + Sync>(_value: &T) {}

// Threads may be sent outboxes and may share them.
fn outbox_crosses_threads(outbox: &Outbox) {
    crosses_threads(outbox);
}
