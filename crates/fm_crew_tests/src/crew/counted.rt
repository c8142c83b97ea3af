//! Steps on a tape, counted by kind.
use fm_core::Step;
use fm_record::read_step;

/// How many steps of a kind a tape has, and of how many events they tell.
#[derive(Clone, Copy)]
pub struct Counts {
    /// Claims and starts, by which a seat comes to hold a process.
    pub holds: u32,
    /// Starts alone.
    pub starts: u32,
    pub records: u32,
    pub gives: u32,
    /// Publishes, paces and releases.
    pub others: u32,
    /// Events that gives take and compute, and that are released.
    pub taken: u32,
    pub computed: u32,
    pub released: u32,
}

/// Of no steps.
const NONE: Counts = Counts {
    holds: 0,
    starts: 0,
    records: 0,
    gives: 0,
    others: 0,
    taken: 0,
    computed: 0,
    released: 0,
};

impl Counts {
    // The counts with a step more.
    fn plus(self, step: Step) -> Counts {
        let mut counts = self;
        match step {
            Step::Look { .. } | Step::Recall { .. } => {}
            Step::Claim { .. } => counts.holds = counts.holds.wrapping_add(1),
            Step::Start { .. } => {
                counts.holds = counts.holds.wrapping_add(1);
                counts.starts = counts.starts.wrapping_add(1);
            }
            Step::Record { .. } => counts.records = counts.records.wrapping_add(1),
            Step::Give {
                taken,
                computed,
                ..
            } => {
                counts.gives = counts.gives.wrapping_add(1);
                counts.taken = counts.taken.wrapping_add(taken);
                counts.computed = counts.computed.wrapping_add(computed);
            }
            Step::Publish | Step::Pace { .. } => counts.others = counts.others.wrapping_add(1),
            Step::Release { count } => {
                counts.others = counts.others.wrapping_add(1);
                counts.released = counts.released.wrapping_add(count);
            }
        }
        counts
    }

    /// How many steps there are but looks.
    pub fn total(&self) -> u32 {
        let held = self.holds.wrapping_add(self.gives);
        held.wrapping_add(self.records).wrapping_add(self.others)
    }
}

/// The counts of the steps whose bytes these are; none of bytes that are no steps.
pub fn count_steps(bytes: &[u8]) -> Option<Counts> {
    let (mut counts, mut rest) = (NONE, bytes);
    for _ in 0..bytes.len() {
        if rest.is_empty() {
            break;
        }
        let (step, size) = read_step(rest)?;
        counts = counts.plus(step);
        rest = rest.get(size..).unwrap_or(&[]);
    }
    Some(counts)
}
