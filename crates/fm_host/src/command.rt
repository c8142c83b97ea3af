//! One run on a host.
ghost use Rattle.std.specs.Prelude.{◌≡◌, ◌≤◌, false, true, [], List, String, IfOk, IfSome, IsNone, OnErr, drop, map, string_bytes};
ghost use Rattle.std.specs.Result.{result_ok};
ghost use Rattle.std.specs.Vec.Iter.{into_iter_items};
ghost use Rattle.fm_host.specs.Runs.{IsRun};
ghost use Rattle.fm_tell.specs.declared.status.TheConstants.{NO_PROCESS};
ghost use Rattle.fm_words.specs.Settings.{files_of, settings_of};

use crate::words::{file_names, words_of};
use fm_edge::{ConsoleSink, FileSink, FileSource, OpenGate};
use fm_top::formula_over;
use std::alloc::{AllocError, Global};
use std::env::Args;
use std::rt::{Env, Files};
use std::sync::Wait;
use std::thread::Threads;
use std::{env, fs, io};

/// A file that gives nothing when it is read, and is not written.
const NOTHING: &str = "/dev/null";

/// The places of standard input, standard output and standard error, by the names that the host
/// gives them.
const INPUT_PLACE: &str = "/proc/self/fd/0";

const OUTPUT_PLACE: &str = "/proc/self/fd/1";

const ERROR_PLACE: &str = "/proc/self/fd/2";

// The file that takes a place among the open files where it is closed: the host gives a file the
// lowest place that is free. So OUT never has the place of a closed standard output, and the
// console's line is never in OUT. A place that is open is left alone, and no other is taken. A
// failure is passed over.
fn hold_place<T, F: FnOnce() -> io::Result<T>>(is_open: bool, opening: F) -> Option<T>
    requires { F.IsAlwaysCallable opening }
    ensures left { is_open ≡ true → IsNone result }
    ensures held { is_open ≡ false → (given : _) × F.post opening given × (result ≡ result_ok given) }
{
    if is_open {
        return None;
    }
    opening().ok()
}

// Plays the file of the first name into that of the second, and says the exit status.
fn play<R: Threads + Wait + Sync, H: Files + Print>(
    rt: &R,
    host: &H,
    alloc: Global,
    words: &[String],
    from: &str,
    to: &str,
) -> u8
    requires names { IfSome (files_of (settings_of (map string_bytes words.now)))
        (λ n. n ≡ (from.now, to.now)) }
    ensures ends { IsRun words.now result }
    ensures known { result ≤ NO_PROCESS }
{
    let mut source = FileSource::new(host, from);
    let mut sink = FileSink::new(host, to);
    let mut console = ConsoleSink::new(host);
    formula_over(
        rt,
        alloc,
        words,
        &mut source,
        &mut sink,
        &mut console,
        &OpenGate,
    )
}

// Does what the words ask for that the host gave.
fn obey<R: Threads + Wait + Sync, H: Files + Print>(
    rt: &R,
    host: &H,
    alloc: Global,
    given: io::Result<Args>,
) -> Result<u8, AllocError>
    ensures ends { IfOk given (λ all. IfOk result (IsRun (drop 1 (into_iter_items all)))) }
    ensures none { OnErr given (IfOk result (IsRun {A = Global} [])) }
    ensures known { IfOk result (λ status. status ≤ NO_PROCESS) }
{
    let words = words_of(alloc, given)?;
    let (from, to) = file_names(alloc, &words)?;
    Ok(play(rt, host, alloc, &words, from.as_str(), to.as_str()))
}

/// Plays the file that the first word names into the one that the second names, and says the exit
/// status. Where the words are refused, neither file is opened; where they ask for a large score,
/// the first is not.
pub fn run<R: Threads + Wait + Sync, H: Env + Files + Print + AllocGlobal>(
    rt: &R,
    host: &H,
) -> Result<u8, AllocError>
    ensures ends { IfOk result (λ status. (words : List (String Global)) × IsRun words status) }
    ensures known { IfOk result (λ status. status ≤ NO_PROCESS) }
{
    let _input = hold_place(
        fs::metadata(host, INPUT_PLACE).is_ok(),
        || fs::open(host, NOTHING),
    );
    let _output = hold_place(
        fs::metadata(host, OUTPUT_PLACE).is_ok(),
        || fs::open(host, NOTHING),
    );
    let _error = hold_place(
        fs::metadata(host, ERROR_PLACE).is_ok(),
        || fs::open(host, NOTHING),
    );
    obey(rt, host, host.alloc(), env::args(host))
}
