//! Lines of words: what each asks for, and which are refused.

use crate::same::{same, same_bytes};
use fm_words::{Options, WordsFault, names, read_options};
use std::alloc::{AllocError, Global};
use std::process::Abort;
use std::test::Fail;

/// Lines of words that are refused, with a `|` between two words. Each breaks one rule.
const REFUSED: &[&str] = &[
    "",
    "a",
    "a|b|c",
    "a|b|--lead",
    "a|b|--lead|5_0",
    "a|b|--lead|1000001",
    "a|b|--room|0",
    "a|b|--lead=5|--lead|6",
    "a|b|--rounds=1",
    "a|b|--help",
    "a|b|-w|5",
];

/// Workers, lead, room, and whether the threads play in rounds.
type Playing = (u32, u64, u32, bool);

/// The large score, the process and the tick to locate in its levels, and the ticks of an excerpt.
type Numbers = (Option<u32>, u32, Option<u64>, Option<u64>, Option<u64>);

/// Whether a listing, parts, a record or an audit is asked for.
type Flags = (bool, bool, bool, bool);

/// A line of words and what it asks for, behind the two texts.
type Row = (
    &'static str,
    (&'static str, &'static str),
    Playing,
    Numbers,
    Flags,
);

/// How a line without options is played.
const PLAIN: Playing = (4, 7_680, 32, false);

/// What it asks for besides.
const NO_NUMBERS: Numbers = (None, 0, None, None, None);

const NO_FLAGS: Flags = (false, false, false, false);

/// Lines of words that are taken.
const TAKEN: &[Row] = &[
    ("a|b", ("a", "b"), PLAIN, NO_NUMBERS, NO_FLAGS),
    (
        "--lead=+5|a|--rounds|--workers|007|--room|64|--|-b",
        ("a", "-b"),
        (7, 5, 64, true),
        NO_NUMBERS,
        NO_FLAGS,
    ),
    (
        "a|--generate|124|b|--process=16383|--locate|1099511627776",
        ("a", "b"),
        PLAIN,
        (Some(124), 16_383, Some(1_099_511_627_776), None, None),
        NO_FLAGS,
    ),
    (
        "|b|--from|480|--to|+7|--list|--parts",
        ("", "b"),
        PLAIN,
        (None, 0, None, Some(480), Some(7)),
        (true, true, false, false),
    ),
    (
        "--record|-|--audit|b",
        ("-", "b"),
        PLAIN,
        NO_NUMBERS,
        (false, false, true, true),
    ),
];

fn words_of(alloc: Global, line: &str) -> Result<Vec<String>, AllocError> {
    let mut words = Vec::new(alloc);
    for word in line.split('|') {
        words.push(String::from_str(alloc, word)?)?;
    }
    Ok(words)
}

// What a line of words asks for.
fn options_of(alloc: Global, line: &str) -> Result<Options, WordsFault> {
    read_options(alloc, &words_of(alloc, line)?)
}

// A line of words is refused.
fn is_refused<R: Abort + AllocGlobal>(rt: &R, line: &str) {
    same(
        rt,
        &options_of(rt.alloc(), line).err(),
        &Some(WordsFault::Words),
    );
}

#[test]
fn doubtful_words_are_refused(rt: HostRuntime) {
    for line in REFUSED {
        is_refused(&rt, line);
    }
}

// Compares what was asked for with a row.
fn asks_for<R: Abort>(rt: &R, o: &Options, row: &Row) {
    same(rt, &(o.source.as_str(), o.target.as_str()), &row.1);
    same(rt, &(o.workers, o.lead, o.room, o.rounds), &row.2);
    same(rt, &(o.generate, o.process, o.locate, o.from, o.to), &row.3);
    same(rt, &(o.list, o.parts, o.recorded, o.audited), &row.4);
}

#[test]
fn words_ask_for_what_they_say(rt: HostRuntime) -> Result<(), Fail> {
    for row in TAKEN {
        asks_for(&rt, &options_of(rt.alloc(), row.0)?, row);
    }
    Ok(())
}

#[test]
fn names_are_the_two_texts(rt: HostRuntime) -> Result<(), Fail> {
    let words = words_of(rt.alloc(), "a.txt|b.mid|--lead|0")?;
    let (source, target) = names(rt.alloc(), &words)?;
    same(
        &rt,
        &(source.as_str(), target.as_str()),
        &("a.txt", "b.mid"),
    );
    Ok(())
}

// A fault says this.
fn says<R: Abort + AllocGlobal>(rt: &R, fault: WordsFault, wanted: &str) -> Result<(), AllocError> {
    let text = format!(in rt.alloc(); "{fault}")?;
    same_bytes(rt, text.as_bytes(), wanted.as_bytes());
    Ok(())
}

#[test]
fn faults_say_what_they_are(rt: HostRuntime) -> Result<(), AllocError> {
    says(&rt, WordsFault::Words, "words refused")?;
    says(&rt, WordsFault::Memory, "out of memory")
}
