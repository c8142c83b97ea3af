//! A run, as far as one thread does it.
ghost use Rattle.std.specs.Prelude.{◌≡◌, Some, IfOk, IfErr, IsErrOf, map, string_bytes};
ghost use Rattle.fm_edge.specs.Content.{IsNew};
ghost use Rattle.fm_words.specs.Asked.{settings_by_rules};
ghost use Rattle.fm_words.specs.Settings.{Settings};
ghost use Rattle.fm_words.specs.View.{HasRanges, options_view};
ghost use Rattle.fm_top.specs.Begins.{Begins};
ghost use Rattle.fm_top.specs.Taking.{Takes, TakesFor, IsLeftAlone};
ghost use Rattle.fm_top.specs.Tasks.{CanDo, asked, most_of, number_asked, number_of};
ghost use Rattle.fm_top.specs.Tasks.{task_of as task_for};
ghost use Rattle.fm_top.specs.Outcome.{Holds, Stops};
ghost use Rattle.fm_top.specs.Seen.{of_sink, of_source};

use crate::audits::audit_record;
use crate::begun::Begun;
use crate::listing::list_file;
use crate::perform::{perform, rewrite};
use crate::positions::locate_tick;
use crate::taping::read_recording;
use crate::task::{Task, task_of};
use crate::told::Told;
use fm_edge::{Gate, Sink, Source};
use fm_tell::RunFault;
use fm_words::{Options, WordsFault, read_options, words_obey_rules};
use std::alloc::Global;

/// Reads the words, and does what they ask for, unless several threads play the score that it read.
/// It is not handed a runtime, so it starts no thread and waits for none: it always returns, if the
/// calls of the source, the sink and the gate do. That is the whole run without workers, for a
/// score of one process, and for all but a file that is played and a record.
pub fn begin<S: Source, K: Sink, G: Gate>(
    alloc: Global,
    words: &[String],
    source: &mut S,
    sink: &mut K,
    gate: &G,
) -> Result<Begun, RunFault>
    requires new { IsNew (K.seen.content sink.old) }
    ensures takes { TakesFor S.seen (asked words.now) source.old source.new }
    ensures calm { (IsErrOf result RunFault.Read → ⊥)
        → S.seen.faults source.new ≡ S.seen.faults source.old }
    ensures unread { IsLeftAlone (number_asked (asked words.now)) source.old source.new }
    ensures ok { IfOk result (λ begun. (s : Settings)
        × (settings_by_rules (map string_bytes words.now) ≡ Some s)
        × Begins (of_source S.seen source.old source.new)
        (of_sink K.seen sink.old sink.new) s (task_for s) begun) }
    ensures err { IfErr result (Holds (of_source S.seen source.old source.new)
        (of_sink K.seen sink.old sink.new) (asked words.now)) }
{
    words_obey_rules(words);
    let options = match read_options(alloc, words) {
        Ok(options) => options,
        Err(WordsFault::Words) => return Err(RunFault::Words),
        Err(WordsFault::Memory) => return Err(RunFault::Memory),
    };
    let task = task_of(&options);
    begin_task(alloc, task, &options, source, sink, gate)
}

// Does a task, as far as one thread does it.
fn begin_task<S: Source, K: Sink, G: Gate>(
    alloc: Global,
    task: Task,
    options: &Options,
    source: &mut S,
    sink: &mut K,
    gate: &G,
) -> Result<Begun, RunFault>
    requires ranges { HasRanges (options_view options.now) }
    requires can { CanDo task }
    requires new { IsNew (K.seen.content sink.old) }
    ensures takes { Takes S.seen (most_of task) source.old source.new }
    ensures calm { (IsErrOf result RunFault.Read → ⊥)
        → S.seen.faults source.new ≡ S.seen.faults source.old }
    ensures unread { IsLeftAlone (number_of task) source.old source.new }
    ensures ok { IfOk result (Begins (of_source S.seen source.old source.new)
        (of_sink K.seen sink.old sink.new) (options_view options.now) task) }
    ensures err { IfErr result (Stops (of_source S.seen source.old source.new)
        (of_sink K.seen sink.old sink.new) task) }
{
    match task {
        Task::Play { generate } => perform(alloc, generate, options, source, sink, gate),
        Task::Split { generate } => {
            let told = rewrite(alloc, generate, None, options, source, sink)?;
            Ok(Begun::Done(told))
        }
        Task::Excerpt {
            generate,
            begin,
            until,
        } => {
            let told = rewrite(alloc, generate, Some((begin, until)), options, source, sink)?;
            Ok(Begun::Done(told))
        }
        Task::List => {
            list_file(alloc, source, sink)?;
            Ok(Begun::Done(Told::Nothing))
        }
        Task::Record { generate, setup } => match read_recording(alloc, generate, setup, source) {
            Ok(recording) => Ok(Begun::Record(recording)),
            Err(fault) => Err(fault),
        },
        Task::Audit => {
            audit_record(alloc, source, sink)?;
            Ok(Begun::Done(Told::Nothing))
        }
        Task::Locate {
            generate,
            tick,
            process,
        } => match locate_tick(alloc, generate, tick, process, source) {
            Ok(told) => Ok(Begun::Done(told)),
            Err(fault) => Err(fault),
        },
    }
}
