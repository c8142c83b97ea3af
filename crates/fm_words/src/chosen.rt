//! What the matches of the command choose, lent from the words.
ghost use Rattle.std.specs.Prelude.{◌≡◌, ◌≤◌, ◌<◌, ◌^◌, IfSome, Some, None, [], IfOk, IfErr, map, option_map, string_bytes};
ghost use Rattle.clap.specs.Words.{first_of, found_of, matches_of, rows_of};
ghost use Rattle.clap.specs.Faults.{fault_of};
ghost use Rattle.fm_words.specs.Command.{command};
ghost use Rattle.fm_words.specs.Settings.{has_flag, number_if_any, number_in, number_or, settings_in};
ghost use Rattle.fm_words.specs.View.{HasRanges, IsRefusedBy, chosen_view};

use crate::command::formula_command;
use crate::limits::{
    DEFAULT_LEAD, DEFAULT_PROCESS, DEFAULT_ROOM, DEFAULT_WORKERS, MAX_GENERATE, MAX_LEAD,
    MAX_PROCESS, MAX_ROOM, MAX_TICK_ASKED, MAX_WORKERS, MIN_ROOM,
};
use crate::words_fault::WordsFault;
use clap::ArgMatches;
use clap::error::ErrorKind;
use std::alloc::Global;

/// What the words ask for, with the two texts lent from them.
#[derive(Drop)]
pub struct Chosen<'a> {
    pub source: &'a str,
    pub target: &'a str,
    pub workers: u32,
    pub lead: u64,
    pub room: u32,
    pub generate: Option<u32>,
    pub rounds: bool,
    pub list: bool,
    pub parts: bool,
    pub locate: Option<u64>,
    pub process: u32,
    pub from: Option<u64>,
    pub to: Option<u64>,
    pub recorded: bool,
    pub audited: bool,
}

/// What the command finds in the words.
pub fn matches_in<'a>(alloc: Global, words: &'a [String]) -> Result<ArgMatches<'a>, WordsFault>
    ensures ok { IfOk result (λ m. (fault_of command (map string_bytes words.entry.now) ≡ [])
        × (rows_of (found_of m) ≡ matches_of command (map string_bytes words.entry.now))) }
    ensures err { IfErr result (λ e.
        IsRefusedBy (fault_of command (map string_bytes words.entry.now)) e) }
{
    let command = formula_command(alloc)?;
    match command.try_get_matches_from(words) {
        Ok(matches) => Ok(matches),
        Err(error) => Err(fault_by(error.kind())),
    }
}

// What an error of the command means: every kind but want of memory is a refusal.
fn fault_by(kind: ErrorKind) -> WordsFault
    ensures memory { kind ≡ ErrorKind.OutOfMemory → result ≡ WordsFault.Memory }
    ensures words { result ≡ WordsFault.Memory → kind ≡ ErrorKind.OutOfMemory }
{
    if kind == ErrorKind::OutOfMemory {
        WordsFault::Memory
    } else {
        WordsFault::Words
    }
}

/// What the matches choose, or nothing where a number is none or is out of its range.
#[tactic(auto, unfolding(crate::specs::Settings::settings_in))]
pub fn chosen_in<'a>(matches: &ArgMatches<'a>) -> Option<Chosen<'a>>
    ensures is { option_map chosen_view result ≡ settings_in (rows_of (found_of matches.now)) }
    ensures range { IfSome result (λ c. HasRanges (chosen_view c)) }
{
    let source = text_of(matches, "IN")?;
    let target = text_of(matches, "OUT")?;
    let workers = number_of(matches, "workers", 0, MAX_WORKERS, DEFAULT_WORKERS)?;
    let lead = number_of(matches, "lead", 0, MAX_LEAD, DEFAULT_LEAD)?;
    let room = number_of(matches, "room", MIN_ROOM, MAX_ROOM, DEFAULT_ROOM)?;
    let generate = number_if_given(matches, "generate", u64::from(MAX_GENERATE))?;
    let rounds = flag_of(matches, "rounds");
    let list = flag_of(matches, "list");
    let parts = flag_of(matches, "parts");
    let locate = number_if_given(matches, "locate", MAX_TICK_ASKED)?;
    let process = number_of(matches, "process", 0, MAX_PROCESS, DEFAULT_PROCESS)?;
    let from = number_if_given(matches, "from", MAX_TICK_ASKED)?;
    let to = number_if_given(matches, "to", MAX_TICK_ASKED)?;
    let recorded = flag_of(matches, "record");
    let audited = flag_of(matches, "audit");
    Some(Chosen {
        source,
        target,
        workers: workers as u32,
        lead,
        room: room as u32,
        generate: in_32_bits(generate),
        rounds,
        list,
        parts,
        locate,
        process: process as u32,
        from,
        to,
        recorded,
        audited,
    })
}

// The first value of a text or an option.
fn text_of<'a>(matches: &ArgMatches<'a>, id: &str) -> Option<&'a str>
    ensures { option_map (λ s. s.now) result ≡ first_of id.now (rows_of (found_of matches.now)) }
{
    matches.get_str(id)
}

// Whether a flag was given. The command gives it a text of its own.
fn flag_of(matches: &ArgMatches<'_>, id: &str) -> bool
    ensures { result ≡ has_flag (first_of id.now (rows_of (found_of matches.now))) }
{
    match text_of(matches, id) {
        Some(text) => text == "true",
        None => false,
    }
}

// The number of an option, or the default where it was not given.
fn number_of(matches: &ArgMatches<'_>, id: &str, low: u64, high: u64, default: u64) -> Option<u64>
    requires { (low ≤ default) × (default ≤ high) }
    ensures is { result
        ≡ number_or low high default (first_of id.now (rows_of (found_of matches.now))) }
    ensures range { IfSome result (λ n. (low ≤ n) × (n ≤ high)) }
{
    match text_of(matches, id) {
        Some(text) => number(text, low, high),
        None => Some(default),
    }
}

// The number of an option that has no default, from 0 on; `Some(None)` where it was not given.
fn number_if_given(matches: &ArgMatches<'_>, id: &str, high: u64) -> Option<Option<u64>>
    ensures is { result
        ≡ number_if_any 0 high (first_of id.now (rows_of (found_of matches.now))) }
    ensures range { IfSome result (λ given. IfSome given (λ n. n ≤ high)) }
{
    let Some(text) = text_of(matches, id) else {
        return Some(None);
    };
    let n = number(text, 0, high)?;
    Some(Some(n))
}

// A small number, or none, in 32 bits.
fn in_32_bits(given: Option<u64>) -> Option<u32>
    requires { IfSome given (λ n. n < 2 ^ 32) }
    ensures { result ≡ given }
{
    match given {
        Some(n) => Some(n as u32),
        None => None,
    }
}

// The number that a text spells, where it lies in the range.
fn number(text: &str, low: u64, high: u64) -> Option<u64>
    ensures is { result ≡ number_in low high text.now }
    ensures range { IfSome result (λ n. (low ≤ n) × (n ≤ high)) }
{
    let Ok(n) = text.parse::<u64>() else {
        return None;
    };
    if n < low || n > high {
        return None;
    }
    Some(n)
}
