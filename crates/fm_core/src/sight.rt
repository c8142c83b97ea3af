//! What one look saw.
ghost use Rattle.std.specs.Prelude.{◌≡◌, map};
ghost use Rattle.fm_line.specs.Line.{greatest};
ghost use Rattle.fm_core.specs.Sweep.{lesser, pair_at, sight, sight_at};

use crate::Tag;

/// What a look saw of a process.
#[derive(Clone, Copy, Debug, PartialEq, Eq, Drop)]
pub struct Sight {
    /// Its clock in ticks; of an unborn process, the greatest that was seen of its predecessors.
    pub clock: u64,
    /// Whether it was at its end.
    pub ended: bool,
}

impl Sight {
    /// What a look that finds this tag and clock of a process enters in a sweep.
    pub fn of(tag: Tag, clock: u64, seen: &[Sight], predecessors: &[u32]) -> Sight
        ensures { result ≡ sight_at tag clock seen.now predecessors.now }
    {
        let clock = if tag.is_unborn() {
            greatest_seen(seen, predecessors)
        } else {
            clock
        };
        Sight {
            clock,
            ended: tag.is_ended(),
        }
    }

    /// The clock and the number of the process, none where it was seen ended.
    pub fn pair(self, process: u32) -> Option<(u64, u32)>
        ensures { result ≡ pair_at self process }
    {
        if self.ended {
            None
        } else {
            Some((self.clock, process))
        }
    }
}

// The greatest clock that was seen of these processes.
fn greatest_seen(seen: &[Sight], processes: &[u32]) -> u64
    ensures { result ≡ greatest (map (λ q. (sight seen.now q).clock) processes.now) }
{
    let mut most = 0;
    for process in processes {
        most = most.max(clock_seen(seen, *process));
    }
    most
}

// The clock that was seen of a process, 0 where it was not seen.
fn clock_seen(seen: &[Sight], process: u32) -> u64
    ensures { result ≡ (sight seen.now process).clock }
{
    match seen.get(process as usize) {
        Some(sight) => sight.clock,
        None => 0,
    }
}

/// The lesser of two pairs of clock and process; the first of equal clocks.
pub fn lesser_pair(first: Option<(u64, u32)>, second: Option<(u64, u32)>) -> Option<(u64, u32)>
    ensures { result ≡ lesser first second }
{
    match (first, second) {
        (None, _) => second,
        (Some(_), None) => first,
        (Some(one), Some(other)) => { if other.0 < one.0 { second } else { first } }
    }
}
