//! How a thread rests, and how all that rest are woken at the end of a run.
ghost use Rattle.std.specs.Prelude.{◌≤◌};
ghost use Rattle.fm_rest.specs.declared.idle.TheConstants.{LONGEST_REST};

use std::marker::{Send, Sync};
use std::sync::Wait;
use std::sync::atomic::{AtomicU64, Ordering};
use std::time::Duration;

/// The low 32 bits of the word until the bell is rung.
const SILENT: u32 = 0;

/// The word after that.
const RUNG: u64 = 1;

/// Shows that a bell was rung: only [`Bell::ring`] makes one. Who has to return it has to ring.
#[derive(Drop)]
pub struct Rung {
    _made: (),
}

/// A bell by which threads rest until it is rung. They share it by reference.
#[derive(Drop)]
pub struct Bell {
    word: AtomicU64,
}

impl Bell {
    /// A bell that was not rung.
    pub fn new() -> Bell {
        Bell {
            word: AtomicU64::new(u64::from(SILENT)),
        }
    }

    /// Sleeps for so many microseconds at most, and for 20 milliseconds at most. Once the bell is
    /// rung it returns at once.
    pub fn rest<R: Wait>(&self, rt: &R, microseconds: u64)
        requires { microseconds ≤ LONGEST_REST }
    {
        self.word
            .park_timeout(rt, SILENT, Duration::from_micros(microseconds));
    }

    /// Wakes all that rest, and lets nobody rest from now on.
    pub fn ring(&self) -> Rung {
        self.word.store(RUNG, Ordering::SeqCst);
        self.word.wake_all();
        Rung { _made: () }
    }
}

fn crosses_threads<T: Send + Sync>(_value: &T) {}

// Threads may share bells.
fn bell_crosses_threads(bell: &Bell) {
    crosses_threads(bell);
}
