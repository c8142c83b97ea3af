//! The note-offs of a process that wait.
ghost use Rattle.std.specs.Prelude.{◌≡◌, ◌≤◌, ◌<◌, ◌+◌, [], ◌∷◌, ◌++◌, length, true, false, IfSome, IfNone};
ghost use Rattle.fm_line.specs.Sounds.{clock_with, most_waiting};

use crate::NoteOff;
use arrayvec::ArrayVec;
use std::marker::{Model, Send, Sync};

/// How many note-offs of a process wait at most.
pub const MOST_WAITING: usize = 16;

/// The note-offs that wait, the one whose note began first in front. It takes no memory.
#[derive(Drop)]
pub struct Waiting {
    offs: ArrayVec<NoteOff, MOST_WAITING>,
}

impl Model for Waiting {
    ghost use Rattle.std.specs.Prelude.{All, List, length, ◌≤◌};
    ghost use Rattle.fm_line.specs.Sounds.{Sound};
    ghost use Rattle.fm_offs.specs.declared.waiting.TheConstants.{MOST_WAITING};
    ghost use Rattle.fm_offs.specs.Stack.{IsOff, off_sounds};

    ghost Value = { List Sound };

    ghost view = { λ w. off_sounds w.offs.items };

    ghost invariant = { λ w.
        (length w.offs.items ≤ MOST_WAITING) × All IsOff w.offs.items };
}

impl Waiting {
    ghost use Rattle.fm_offs.specs.Stack.{ComesNext, HasRoom, IsOff, LetsOut, off_sound};

    /// None waits.
    pub fn new() -> Self
        ensures { result ≡ [] }
    {
        Waiting {
            offs: ArrayVec::new(),
        }
    }

    /// How many wait.
    pub fn len(&self) -> usize
        ensures { result ≡ length self.now }
    {
        self.offs.len()
    }

    /// One more waits, behind those that wait.
    pub fn push(&mut self, off: NoteOff)
        requires room { length self.old < most_waiting }
        requires range { IsOff off }
        ensures { self.new ≡ self.old ++ off_sound off ∷ [] }
    {
        self.offs.push(off);
    }

    /// The next one that comes out before a sound that begins at `tick` and has so many pitches;
    /// 0 where it is no note, `MOST_WAITING` where it is the end of the process. `None` where there
    /// is no such one: then there is room for the pitches.
    pub fn next(&mut self, tick: u64, pitches: usize) -> Option<NoteOff>
        requires pitches { pitches ≤ most_waiting }
        ensures some { IfSome result (λ off.
            LetsOut tick pitches self.old self.new (off_sound off)) }
        ensures range { IfSome result IsOff }
        ensures none { IfNone result (HasRoom tick pitches self.old) }
        ensures same { IfNone result (self.new ≡ self.old) }
    {
        if self.offs.is_empty() {
            return None;
        }
        let first = earliest(self.offs.as_slice());
        if self.offs[first].tick <= tick {
            return Some(self.offs.remove(first));
        }
        if MOST_WAITING < self.offs.len() + pitches {
            let off = self.offs.remove(0);
            return Some(NoteOff { tick, ..off });
        }
        None
    }

    /// Whether `next` would give one.
    pub fn is_next(&self, tick: u64, pitches: usize) -> bool
        requires pitches { pitches ≤ most_waiting }
        ensures yes { result ≡ true → ComesNext tick pitches self.now }
        ensures no { result ≡ false → HasRoom tick pitches self.now }
    {
        if self.offs.is_empty() {
            return false;
        }
        let first = earliest(self.offs.as_slice());
        if self.offs[first].tick <= tick {
            return true;
        }
        MOST_WAITING < self.offs.len() + pitches
    }

    /// The tick before which nothing more comes out of a process that stands at `tick`: the
    /// earlier of that tick and of the earliest that waits.
    pub fn clock(&self, tick: u64) -> u64
        ensures { result ≡ clock_with tick self.now }
    {
        if self.offs.is_empty() {
            return tick;
        }
        let first = earliest(self.offs.as_slice());
        tick.min(self.offs[first].tick)
    }
}

ghost use Rattle.fm_offs.specs.Stack.{IsEarliest};

// The index of the one with the least tick, of equals the first.
fn earliest(offs: &[NoteOff]) -> usize
    requires some { 0 < length offs.now }
    ensures { IsEarliest offs.now result }
{
    let mut first = 0;
    for index in 1..offs.len() {
        if offs[index].tick < offs[first].tick {
            first = index;
        }
    }
    first
}

fn crosses_threads<T: Send + Sync>(_value: &T) {}

// Threads may send and share what waits.
fn waiting_crosses_threads(waiting: &Waiting) {
    crosses_threads(waiting);
}
