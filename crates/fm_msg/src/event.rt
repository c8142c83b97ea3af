//! A message at a tick.
ghost use Rattle.std.specs.Prelude.{◌≡◌, IsTrue};
ghost use Rattle.fm_msg.specs.Message.{is_in_range};
ghost use Rattle.fm_msg.specs.Event.{TimedMessage, event_cmp};

use crate::Msg;
use std::cmp::Ordering;
use std::marker::{Model, Send, Sync};

/// A message in range at a tick, with the number of the process that made it and its number
/// there. The order is by time, then process, then index, and last by the message.
#[derive(Clone, Copy, Debug, PartialEq, Eq, PartialOrd, Ord)]
pub struct Event {
    time: u64,
    process: u32,
    index: u32,
    msg: Msg,
}

impl Model for Event {
    ghost Value = { TimedMessage };

    ghost view = { λ e.
        record { time = e.time; process = e.process; index = e.index; msg = e.msg } };

    ghost inverse = { λ v.
        record { time = v.time; process = v.process; index = v.index; msg = v.msg } };

    ghost invariant = { λ e. IsTrue (is_in_range e.msg) };
}

impl Event {
    /// The event of these parts, its time in ticks.
    pub fn new(time: u64, process: u32, index: u32, msg: Msg) -> Event
        requires { IsTrue (is_in_range msg) }
        ensures { result ≡ record { time = time; process = process; index = index; msg = msg } }
    {
        Event {
            time,
            process,
            index,
            msg,
        }
    }

    /// The tick at which it sounds.
    pub fn time(&self) -> u64
        ensures { result ≡ self.now.time }
    {
        self.time
    }

    /// The process that made it.
    pub fn process(&self) -> u32
        ensures { result ≡ self.now.process }
    {
        self.process
    }

    /// Its number among the events of its process, from 0.
    pub fn index(&self) -> u32
        ensures { result ≡ self.now.index }
    {
        self.index
    }

    /// Its message, which is in range.
    pub fn msg(&self) -> Msg
        ensures value { result ≡ self.now.msg }
        ensures range { IsTrue (is_in_range result) }
    {
        self.msg
    }

    /// The derived order, as `cmp` gives it.
    pub fn order(&self, other: &Event) -> Ordering
        ensures { result ≡ event_cmp self.now other.now }
    {
        self.cmp(other)
    }
}

fn crosses_threads<T: Send + Sync>(_value: &T) {}

// Threads may be sent events and may share them.
fn event_crosses_threads(event: &Event) {
    crosses_threads(event);
}
