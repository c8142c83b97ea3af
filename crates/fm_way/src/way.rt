//! In which way a plan is played.
ghost use Rattle.std.specs.Prelude.{◌≡◌, ◌<◌, ◌≤◌, false, true, length};
ghost use Rattle.fm_effort.specs.Effort.{IsCheap, IsFew, workers_of};
ghost use Rattle.fm_words.specs.View.{options_view};
ghost use Rattle.fm_way.specs.Ways.{crew_of, is_alone, threads_of, way_of};
ghost use Rattle.fm_way.specs.declared.way.Way.TheVariants.{Rounds};

use fm_effort::useful_workers;
use fm_program::Plan;
use fm_words::Options;

/// In which way a plan is played. Each way writes the same file.
#[derive(Clone, Copy, Debug)]
pub enum Way {
    /// By the calling thread, in rounds.
    Alone,
    /// By the calling thread, as the conductor of a board that has no other seat.
    Conductor,
    /// In rounds of so many threads.
    Rounds { threads: u32 },
    /// By so many workers that run freely, with a conductor on the calling thread.
    Crew { workers: u32 },
}

/// The way in which a plan is played where the words ask for these options. There are never more
/// threads than workers were asked for, none for one process, and without `--rounds` no more than
/// are worth their cost: none for few events, and where an event takes little to compute.
pub fn way_of(options: &Options, plan: &Plan) -> Way
    ensures value { result ≡ way_of (options_view options.now) plan.now }
    ensures most { threads_of result ≤ options.now.workers }
    ensures none { options.now.workers ≡ 0 → is_alone result ≡ true }
    ensures single { length plan.now.programs < 2 → is_alone result ≡ true }
    ensures rounds { options.now.rounds ≡ true → is_alone result ≡ false
        → result ≡ Rounds options.now.workers }
    ensures useful { options.now.rounds ≡ false
        → threads_of result ≤ workers_of plan.now options.now.room options.now.workers }
    ensures few { options.now.rounds ≡ false → IsFew plan.now.programs
        → is_alone result ≡ true }
    ensures cheap { options.now.rounds ≡ false → IsCheap plan.now.programs
        → is_alone result ≡ true }
{
    let workers = options.workers;
    if workers == 0 {
        return Way::Alone;
    }
    if plan.processes() < 2 {
        return Way::Conductor;
    }
    if options.rounds {
        return Way::Rounds { threads: workers };
    }
    crew_of(useful_workers(plan, options.room, workers))
}

// By so many workers, or alone where there are none.
fn crew_of(workers: u32) -> Way
    ensures { result ≡ crew_of workers }
{
    if workers == 0 {
        Way::Alone
    } else {
        Way::Crew { workers }
    }
}
