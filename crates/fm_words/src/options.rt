//! The options of a run, read from the words of the command line.
ghost use Rattle.std.specs.Prelude.{◌≡◌, Some, None, IfOk, IfErr, map, string_bytes};
ghost use Rattle.fm_words.specs.Settings.{files_of, settings_of};
ghost use Rattle.fm_words.specs.View.{HasRanges, options_view};

use crate::chosen::{chosen_in, matches_in};
use crate::words_fault::WordsFault;
use std::alloc::Global;

/// What the words of the command line ask for.
#[derive(Debug, Drop)]
pub struct Options {
    /// The name of the file that is read.
    pub source: String,
    /// The name of the file that is written.
    pub target: String,
    /// How many worker threads play, 0 to 16; 4 where the words do not say.
    pub workers: u32,
    /// How far a process may run ahead of the safe time, 0 to 1,000,000 ticks; else 7,680.
    pub lead: u64,
    /// The room of each process's event queue, 1 to 64 events; else 32.
    pub room: u32,
    /// The number of the large score that is played in place of a text, 0 to 999,999,999; else
    /// none.
    pub generate: Option<u32>,
    /// Whether the threads play in rounds.
    pub rounds: bool,
    /// Whether a MIDI file is read and listed in place of a performance.
    pub list: bool,
    /// Whether the file has a track of its own for each channel.
    pub parts: bool,
    /// The tick that is located in place of a performance, 0 to 2^40; else none.
    pub locate: Option<u64>,
    /// The process in whose levels the tick is located, 0 to 16,383; else 0. It has no effect
    /// where no tick is located.
    pub process: u32,
    /// The tick at which an excerpt begins, 0 to 2^40; else none.
    pub from: Option<u64>,
    /// The tick before which an excerpt ends, 0 to 2^40; else none.
    pub to: Option<u64>,
    /// Whether a record of the run is written in place of the file.
    pub recorded: bool,
    /// Whether a record is read and audited in place of a performance of a text.
    pub audited: bool,
}

/// Reads the words after the program's name. The first text is the file that is read and the second
/// the one that is written; options may stand anywhere before a word `--`.
pub fn read_options(alloc: Global, words: &[String]) -> Result<Options, WordsFault>
    ensures ok { IfOk result (λ options.
        settings_of (map string_bytes words.now) ≡ Some (options_view options)) }
    ensures range { IfOk result (λ options. HasRanges (options_view options)) }
    ensures words { IfErr result (λ e.
        e ≡ WordsFault.Words → settings_of (map string_bytes words.now) ≡ None) }
{
    let matches = matches_in(alloc, words)?;
    let Some(chosen) = chosen_in(&matches) else {
        return Err(WordsFault::Words);
    };
    let source = String::from_str(alloc, chosen.source)?;
    let target = String::from_str(alloc, chosen.target)?;
    Ok(Options {
        source,
        target,
        workers: chosen.workers,
        lead: chosen.lead,
        room: chosen.room,
        generate: chosen.generate,
        rounds: chosen.rounds,
        list: chosen.list,
        parts: chosen.parts,
        locate: chosen.locate,
        process: chosen.process,
        from: chosen.from,
        to: chosen.to,
        recorded: chosen.recorded,
        audited: chosen.audited,
    })
}

/// The file that is read and the file that is written, as the words name them.
pub fn names(alloc: Global, words: &[String]) -> Result<(String, String), WordsFault>
    ensures ok { IfOk result (λ n. files_of (settings_of (map string_bytes words.now))
        ≡ Some (string_bytes n.0, string_bytes n.1)) }
    ensures words { IfErr result (λ e.
        e ≡ WordsFault.Words → settings_of (map string_bytes words.now) ≡ None) }
{
    let Options { source, target, .. } = read_options(alloc, words)?;
    Ok((source, target))
}
