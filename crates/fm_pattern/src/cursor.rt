//! A position in a list that goes round.
ghost use Rattle.std.specs.Prelude.{◌≡◌, ℕ, ◌<◌, ◌≤◌, length};
ghost use Rattle.fm_pattern.specs.Cycle.{IsNext};

use std::marker::Model;

/// How many entries a list has at most.
pub const MAX_ENTRIES: usize = 256;

/// The index of the entry that comes next, which contracts see as that number.
#[derive(Clone, Copy, Debug, PartialEq, Eq)]
pub struct Cursor {
    index: u32,
}

impl Model for Cursor {
    ghost Value = { ℕ };

    ghost view = { λ c. c.index };

    ghost inverse = { λ n. record { index = n } };
}

impl Cursor {
    /// At the first entry.
    pub fn new() -> Cursor
        ensures { result ≡ 0 }
    {
        Cursor { index: 0 }
    }

    /// The entry at the cursor, which then moves on by one, from the last entry to the first.
    #[tactic(auto, using(crate::proofs::Cycles::next_on))]
    pub fn next(&mut self, list: &[u32]) -> u32
        requires few { length list.now ≤ MAX_ENTRIES }
        requires same_list { self.old < length list.now }
        ensures { IsNext list.now self.old result self.new }
    {
        let entry = list[self.index as usize];
        self.index += 1;
        if self.index as usize == list.len() {
            self.index = 0;
        }
        entry
    }
}
