//! How far one process is.
ghost use Rattle.std.specs.Prelude.{◌≡◌};
ghost use Rattle.fm_core.specs.State.{held_by};

use crate::Tag;

/// How far one process is.
#[derive(Clone, Copy, Debug, PartialEq, Eq, Drop)]
pub struct Cell {
    /// Where it is.
    pub tag: Tag,
    /// Its clock in ticks; 0 where it is unborn.
    pub clock: u64,
    /// The seat that holds it; 0 where none does.
    pub seat: u32,
    /// How many of its events are computed.
    pub computed: u32,
    /// How many of its events were taken from its outbox.
    pub taken: u32,
    /// Whether its end was recorded.
    pub recorded: bool,
}

impl Cell {
    /// Whether this seat holds the process.
    pub fn is_held_by(self, seat: u32) -> bool
        ensures { result ≡ held_by seat self }
    {
        self.tag.is_held() && self.seat == seat
    }
}
