//! Which processes were visited since the last publish.
ghost use Rattle.std.specs.Prelude.{◌≡◌, ◌<◌, ◌≤◌, All, length, map, nat_eq, not, IfOk, true, false, replicate, slice_set, slice_index_or};
ghost use Rattle.fm_core.specs.Numbers.{any_below};

use std::alloc::{AllocError, Global};
use std::marker::Model;

/// A mark for each process. No call but `new` goes over the processes.
#[derive(Drop)]
pub(crate) struct Visits {
    // The round in which each process was last visited.
    marks: Vec<u64>,
    // A publish begins the next round.
    round: u64,
    // How many processes were not visited in this round.
    missing: u32,
}

impl Model for Visits {
    ghost use Rattle.std.specs.Prelude.{List, Bool, map, nat_eq};
    ghost use Rattle.fm_state.specs.Marks.{AreMarks};

    ghost Value = { List Bool };

    ghost view = { λ v. map (nat_eq v.round) v.marks.items };

    ghost invariant = { λ v. AreMarks v.round v.marks.items v.missing };
}

impl Visits {
    /// None of so many processes was visited.
    pub(crate) fn new(alloc: Global, processes: u32) -> Result<Visits, AllocError>
        ensures { IfOk result (λ visits. visits ≡ replicate processes false) }
    {
        let marks = vec![in alloc; 0; processes as usize]?;
        Ok(Visits {
            marks,
            round: 1,
            missing: processes,
        })
    }

    /// Whether a process was visited.
    pub(crate) fn has(&self, process: u32) -> bool
        requires { process < length self.now }
        ensures { result ≡ slice_index_or self.now process false }
    {
        self.round == self.marks[process as usize]
    }

    /// Whether some process was not visited.
    pub(crate) fn misses_one(&self) -> bool
        ensures { result
            ≡ any_below (length self.now) (λ p. not (slice_index_or self.now p false)) }
    {
        0 < self.missing
    }

    /// Notes that a process was visited.
    pub(crate) fn add(&mut self, process: u32)
        requires { process < length self.old }
        ensures { self.new ≡ slice_set self.old process true }
    {
        if !self.has(process) {
            self.missing -= 1;
            self.marks[process as usize] = self.round;
        }
    }

    /// No process is visited from now on.
    pub(crate) fn forget(&mut self)
        ensures { self.new ≡ replicate (length self.old) false }
    {
        self.round = next_round(&mut self.marks, self.round);
        self.missing = self.marks.len() as u32;
    }
}

// The next round, in which no process was visited. Where no number is left for it, the marks are
// wiped.
fn next_round(marks: &mut Vec<u64>, round: u64) -> u64
    requires { All (λ mark. mark ≤ round) marks.old.items }
    ensures past { All (λ mark. mark ≤ result) marks.new.items }
    ensures none { map (nat_eq result) marks.new.items ≡ replicate (length marks.old.items) false }
    ensures length { length marks.new.items ≡ length marks.old.items }
{
    if round < u64::MAX {
        return round + 1;
    }
    wipe(marks);
    1
}

// No process was visited in any round.
fn wipe(marks: &mut Vec<u64>)
    ensures { marks.new.items ≡ replicate (length marks.old.items) 0 }
{
    for i in 0..marks.len() {
        marks[i] = 0;
    }
}
