//! Totals that stop at a ceiling.

ghost use Rattle.std.specs.Prelude.{◌≡◌, ℕ, ◌+◌, ◌*◌};
ghost use Rattle.fm_meaning.specs.Bounds.{Totals, totals, plus, with_more, either, beside, repeated, score_totals};
ghost use Rattle.fm_check.specs.Saturation.{capped, saturated};

use fm_tick::MAX_TICK;

/// The greatest number that a total keeps, above each limit.
pub(crate) const CEILING: u64 = MAX_TICK + 1;

/// The number, or the ceiling where it is greater.
#[tactic(auto, unfolding(crate::specs::Saturation::capped))]
pub(crate) fn cap(n: u64) -> u64
    ensures { result ≡ capped n }
{
    n.min(CEILING)
}

// The sum, up to the ceiling.
#[tactic(auto, unfolding(crate::specs::Saturation::capped))]
fn sum(a: u64, b: u64) -> u64
    ensures { result ≡ capped (a + b) }
{
    cap(a.saturating_add(b))
}

// The product, up to the ceiling.
#[tactic(auto, unfolding(crate::specs::Saturation::capped))]
fn product(a: u64, b: u64) -> u64
    ensures { result ≡ capped (a * b) }
{
    cap(a.saturating_mul(b))
}

/// The totals of statements, each up to the ceiling.
#[derive(Clone, Copy, Debug, PartialEq, Eq)]
pub(crate) struct Sums {
    pub(crate) processes: u64,
    pub(crate) operations: u64,
    /// In ticks.
    pub(crate) length: u64,
    pub(crate) events: u64,
    pub(crate) steps: u64,
}

impl Sums {
    /// No statements.
    pub(crate) const NONE: Sums = Sums {
        processes: 0,
        operations: 0,
        length: 0,
        events: 0,
        steps: 0,
    };

    /// No branches: the process that follows a fork.
    pub(crate) const JOINED: Sums = Sums {
        processes: 1,
        operations: 0,
        length: 0,
        events: 0,
        steps: 0,
    };

    /// A statement of one operation.
    #[tactic(auto, unfolding(crate::specs::Saturation::capped))]
    pub(crate) fn single(length: u64, events: u64, steps: u64) -> Sums
        ensures { result ≡ saturated (totals 0 1 length events steps) }
    {
        Sums {
            processes: 0,
            operations: 1,
            length: cap(length),
            events: cap(events),
            steps: cap(steps),
        }
    }

    /// Statements in turn.
    #[tactic(auto, using(crate::proofs::SaturationLemmas::saturation))]
    pub(crate) fn plus(self, other: Sums) -> Sums
        ensures { (a b : Totals) → self ≡ saturated a → other ≡ saturated b →
            result ≡ saturated (plus a b) }
    {
        Sums {
            processes: sum(self.processes, other.processes),
            operations: sum(self.operations, other.operations),
            length: sum(self.length, other.length),
            events: sum(self.events, other.events),
            steps: sum(self.steps, other.steps),
        }
    }

    /// Statements inside a block of so many operations and steps.
    #[tactic(auto, using(crate::proofs::SaturationLemmas::saturation))]
    pub(crate) fn inside(self, operations: u64, steps: u64) -> Sums
        ensures { (a : Totals) →
            self ≡ saturated a → result ≡ saturated (with_more operations steps a) }
    {
        Sums {
            operations: sum(operations, self.operations),
            steps: sum(steps, self.steps),
            ..self
        }
    }

    /// One block or the other.
    #[tactic(auto, using(crate::proofs::SaturationLemmas::saturation))]
    pub(crate) fn either(self, other: Sums) -> Sums
        ensures { (a b : Totals) → self ≡ saturated a → other ≡ saturated b →
            result ≡ saturated (either a b) }
    {
        Sums {
            processes: 0,
            operations: sum(sum(2, self.operations), other.operations),
            length: self.length.max(other.length),
            events: self.events.max(other.events),
            steps: sum(2, self.steps.max(other.steps)),
        }
    }

    /// One branch more beside others.
    #[tactic(auto, using(crate::proofs::SaturationLemmas::saturation))]
    pub(crate) fn beside(self, branch: Sums) -> Sums
        ensures { (a b : Totals) →
            self ≡ saturated a → branch ≡ saturated b → result ≡ saturated (beside b a) }
    {
        Sums {
            processes: sum(1, sum(branch.processes, self.processes)),
            operations: sum(branch.operations, self.operations),
            length: self.length.max(branch.length),
            events: sum(branch.events, self.events),
            steps: sum(branch.steps, self.steps),
        }
    }

    /// A loop of so many rounds: one that forks is written out, a round after the other.
    #[tactic(auto, using(crate::proofs::SaturationLemmas::saturation))]
    pub(crate) fn repeated(self, count: u32, forks: bool) -> Sums
        ensures { (a : Totals) →
            self ≡ saturated a → result ≡ saturated (repeated forks count a) }
    {
        let count = u64::from(count);
        let length = product(count, self.length);
        let events = product(count, self.events);
        if forks {
            Sums {
                processes: product(count, self.processes),
                operations: sum(1, product(count, sum(1, self.operations))),
                length,
                events,
                steps: product(count, self.steps),
            }
        } else {
            Sums {
                processes: 0,
                operations: sum(2, self.operations),
                length,
                events,
                steps: sum(2, product(count, sum(self.steps, 1))),
            }
        }
    }

    /// The totals of a score: with its first process, and with an operation and a step for the end
    /// of each process.
    #[tactic(auto, using(crate::proofs::SaturationLemmas::saturation))]
    pub(crate) fn whole(self) -> Sums
        ensures { (a : Totals) → self ≡ saturated a → result ≡ saturated (score_totals a) }
    {
        let processes = sum(1, self.processes);
        Sums {
            processes,
            operations: sum(self.operations, processes),
            steps: sum(self.steps, processes),
            ..self
        }
    }
}
