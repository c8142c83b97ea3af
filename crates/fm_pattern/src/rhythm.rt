//! A cursor in a list of durations.
ghost use Rattle.std.specs.Prelude.{◌≡◌, ℕ, ◌<◌, ◌≤◌, length};
ghost use Rattle.fm_pattern.specs.Cycle.{IsNext};

use crate::cursor::{Cursor, MAX_ENTRIES};
use std::marker::Model;

/// A cursor in a list of durations, which contracts see as the index of the next one.
#[derive(Clone, Copy, Debug, PartialEq, Eq)]
pub struct Rhythm {
    cursor: Cursor,
}

impl Model for Rhythm {
    ghost Value = { ℕ };

    ghost view = { λ c. c.cursor };

    ghost inverse = { λ n. record { cursor = n } };
}

impl Rhythm {
    /// At the first entry.
    pub fn new() -> Rhythm
        ensures { result ≡ 0 }
    {
        Rhythm {
            cursor: Cursor::new(),
        }
    }

    /// The next duration in ticks; after the last entry the first one comes again.
    pub fn next(&mut self, list: &[u32]) -> u32
        requires few { length list.now ≤ MAX_ENTRIES }
        requires same_list { self.old < length list.now }
        ensures { IsNext list.now self.old result self.new }
    {
        self.cursor.next(list)
    }
}
