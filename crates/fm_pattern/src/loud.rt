//! A cursor in a list of dynamics.
ghost use Rattle.std.specs.Prelude.{◌≡◌, ℕ, ◌<◌, ◌≤◌, length};
ghost use Rattle.fm_pattern.specs.Cycle.{IsNext};

use crate::cursor::{Cursor, MAX_ENTRIES};
use std::marker::Model;

/// A cursor in a list of dynamics, which contracts see as the index of the next one.
#[derive(Clone, Copy, Debug, PartialEq, Eq)]
pub struct Loud {
    cursor: Cursor,
}

impl Model for Loud {
    ghost Value = { ℕ };

    ghost view = { λ c. c.cursor };

    ghost inverse = { λ n. record { cursor = n } };
}

impl Loud {
    /// At the first entry.
    pub fn new() -> Loud
        ensures { result ≡ 0 }
    {
        Loud {
            cursor: Cursor::new(),
        }
    }

    /// The next velocity; after the last entry the first one comes again.
    pub fn next(&mut self, list: &[u32]) -> u32
        requires few { length list.now ≤ MAX_ENTRIES }
        requires same_list { self.old < length list.now }
        ensures { IsNext list.now self.old result self.new }
    {
        self.cursor.next(list)
    }
}
