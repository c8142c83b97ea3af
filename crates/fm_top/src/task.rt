//! What a run is asked to do.
ghost use Rattle.std.specs.Prelude.{◌≡◌};
ghost use Rattle.fm_words.specs.View.{HasRanges, options_view};
ghost use Rattle.fm_top.specs.Tasks.{CanDo, setup_of, task_of};

use fm_way::Setup;
use fm_words::Options;

/// What a run is asked to do. Where several of the later options stand, the first counts of
/// `--audit`, `--list`, `--record`, `--locate`, `--parts`, and `--from` with `--to`; where none
/// does, a score is played.
#[derive(Clone, Copy, Debug)]
pub enum Task {
    /// A score is played: that of the source, or the large score of a number.
    Play {
        generate: Option<u32>,
    },
    /// The same as a file of format 1, with a track for each channel.
    Split {
        generate: Option<u32>,
    },
    /// The part of it from the tick `begin` to the tick `until`, or to its end.
    Excerpt {
        generate: Option<u32>,
        begin: u64,
        until: Option<u64>,
    },
    /// A Standard MIDI File is listed.
    List,
    /// A score is played on record.
    Record {
        generate: Option<u32>,
        setup: Setup,
    },
    /// A record of a run is audited, and the file of its score is written.
    Audit,
    /// A tick is located in the levels that are open where a process starts.
    Locate {
        generate: Option<u32>,
        tick: u64,
        process: u32,
    },
}

/// The task that options ask for.
pub fn task_of(options: &Options) -> Task
    requires ranges { HasRanges (options_view options.now) }
    ensures value { result ≡ task_of (options_view options.now) }
    ensures can { CanDo result }
{
    let generate = options.generate;
    if options.audited {
        return Task::Audit;
    }
    if options.list {
        return Task::List;
    }
    if options.recorded {
        return Task::Record {
            generate,
            setup: setup_of(options),
        };
    }
    if let Some(tick) = options.locate {
        return Task::Locate {
            generate,
            tick,
            process: options.process,
        };
    }
    if options.parts {
        return Task::Split { generate };
    }
    match (options.from, options.to) {
        (None, None) => Task::Play { generate },
        (None, until) => Task::Excerpt {
            generate,
            begin: 0,
            until,
        },
        (Some(begin), until) => Task::Excerpt {
            generate,
            begin,
            until,
        },
    }
}

// With what a score is played on record: by one worker at least.
fn setup_of(options: &Options) -> Setup
    ensures { result ≡ setup_of (options_view options.now) }
{
    Setup {
        workers: if options.workers == 0 {
            1
        } else {
            options.workers
        },
        room: options.room,
        lead: options.lead,
    }
}
