//! The gate at which two processes meet.

use crate::{Gate, Moment};
use std::hint::spin_loop;
use std::marker::{Send, Sync};
use std::sync::atomic::{AtomicBool, AtomicU64, Ordering};
use std::thread::yield_now;

/// Of so many turns of waiting one lets other threads run first.
const SPINS: u32 = 16_384;

/// A gate that counts the time slices that two processes begin. It holds the first slice of the
/// first process until the second has begun so many, and the first slice of the second until the
/// first has begun one: threads that run beside one another meet there.
#[derive(Drop)]
pub struct MeetGate {
    first: u32,
    second: u32,
    laps: u32,
    turns: u32,
    of_first: AtomicU64,
    of_second: AtomicU64,
    gave_up: AtomicBool,
}

impl MeetGate {
    /// A gate for these two processes, which holds the first one for so many laps of the second.
    /// After so many turns of waiting a hold is given up.
    pub fn new(first: u32, second: u32, laps: u32, turns: u32) -> MeetGate {
        MeetGate {
            first,
            second,
            laps,
            turns,
            of_first: AtomicU64::new(0),
            of_second: AtomicU64::new(0),
            gave_up: AtomicBool::new(false),
        }
    }

    /// Whether both processes have begun, and no hold was given up.
    pub fn met(&self) -> bool {
        let first = self.of_first.load(Ordering::SeqCst);
        let second = self.of_second.load(Ordering::SeqCst);
        0 < first && 0 < second && !self.gave_up.load(Ordering::SeqCst)
    }

    // Waits until so many slices of the other process have begun.
    fn hold(&self, other: &AtomicU64, wanted: u64) {
        for turn in 0..self.turns {
            if wanted <= other.load(Ordering::SeqCst) {
                return;
            }
            if turn % SPINS == 0 {
                yield_now();
            } else {
                spin_loop();
            }
        }
        if other.load(Ordering::SeqCst) < wanted {
            self.gave_up.store(true, Ordering::SeqCst);
        }
    }
}

impl Gate for MeetGate {
    fn pass(&self, _actor: u32, process: u32, moment: Moment) {
        if moment == Moment::End {
            return;
        }
        if process == self.first && self.of_first.fetch_add(1, Ordering::SeqCst) == 0 {
            self.hold(&self.of_second, u64::from(self.laps));
        }
        if process == self.second && self.of_second.fetch_add(1, Ordering::SeqCst) == 0 {
            self.hold(&self.of_first, 1);
        }
    }
}

fn crosses_threads<T: Send + Sync>(_value: &T) {}

fn meet_gate_crosses_threads(gate: &MeetGate) {
    crosses_threads(gate);
}
