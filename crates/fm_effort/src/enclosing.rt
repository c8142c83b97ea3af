//! What an operation of a program lies in.
ghost use Rattle.std.specs.Prelude.{◌≡◌, ◌+◌, ◌<◌, length, slice_set};
ghost use Rattle.fm_effort.specs.Effort.{Surroundings, at_first, behind, counted, largest};
ghost use Rattle.fm_effort.specs.Effort.{loop_entered, in_rounds, rounds_in, unsure_to};
ghost use Rattle.fm_effort.specs.Kept.{Encloses};

use fm_program::{Count, MAX_LOOPS, Op};

/// How many entries the table of rounds has: for no loop, and for each loop that may be open.
const ENTRIES: usize = MAX_LOOPS + 1;

/// What an operation of a program lies in: loops, levels of deformation, and parts that may be left
/// out.
#[derive(Drop)]
pub struct Enclosing {
    /// How often the body of each open loop is run in all, the outermost first; without a loop
    /// once.
    rounds: [u64; ENTRIES],
    /// How many loops are open.
    loops: usize,
    /// How many levels of deformation are open.
    pub levels: u64,
    /// The index of the first operation that no test before it leaves out.
    pub sure: usize,
}

impl Enclosing {
    /// Before the first operation, in so many levels.
    pub fn new(levels: u64) -> Enclosing
        ensures { Encloses result (at_first levels) }
    {
        Enclosing {
            rounds: [1; ENTRIES],
            loops: 0,
            levels,
            sure: 0,
        }
    }

    /// How often an operation here is run in all. In more loops than a score may open it is the
    /// greatest number.
    pub fn rounds(&self) -> u64
        ensures { (a : Surroundings) → Encloses self.now a → result ≡ counted (rounds_in a.counts) }
    {
        if self.loops < ENTRIES {
            self.rounds[self.loops]
        } else {
            u64::MAX
        }
    }

    /// Goes past an operation, into the loop or the level that it opens.
    pub fn pass(&mut self, op: &Op)
        ensures { (a : Surroundings) → length a.counts + a.levels < largest → Encloses self.old a →
            Encloses self.new (behind op.now a) }
    {
        match op {
            Op::Loop { count, past, .. } => self.enter(*count, *past),
            Op::Again { .. } => self.loops = self.loops.saturating_sub(1),
            Op::Test { past, .. } => self.leaves_out(*past),
            Op::Jump { target } => self.leaves_out(*target),
            Op::Enter { .. } => self.levels = self.levels.saturating_add(1),
            Op::Leave => self.levels = self.levels.saturating_sub(1),
            _ => {}
        }
    }

    // Opens a loop. Of one with a computed count the rounds are the most that there can be, and it
    // may be left out.
    fn enter(&mut self, count: Count, past: u32)
        ensures { (a : Surroundings) → length a.counts < largest → Encloses self.old a →
            Encloses self.new (loop_entered count past a) }
    {
        match count {
            Count::Fixed { count } => self.open(count),
            Count::Drawn { most, .. } => {
                self.leaves_out(past);
                self.open(most);
            }
        }
    }

    // Opens a loop of so many rounds.
    fn open(&mut self, count: u32)
        ensures { (a : Surroundings) → length a.counts < largest → Encloses self.old a →
            Encloses self.new (in_rounds count a) }
    {
        let rounds = self.rounds().saturating_mul(u64::from(count));
        self.loops = self.loops.saturating_add(1);
        set_rounds(&mut self.rounds, self.loops, rounds);
    }

    // What lies before this operation may be left out.
    fn leaves_out(&mut self, before: u32)
        ensures { (a : Surroundings) → Encloses self.old a →
            Encloses self.new (unsure_to before a) }
    {
        self.sure = self.sure.max(before as usize);
    }
}

// Puts rounds into the table, where it has an entry for so many loops.
fn set_rounds(table: &mut [u64; ENTRIES], loops: usize, rounds: u64)
    ensures { table.new ≡ slice_set table.old loops rounds }
{
    if loops < ENTRIES {
        table[loops] = rounds;
    }
}
