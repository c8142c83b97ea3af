//! Texts that the parser reads or refuses.

use crate::same::same;
use crate::texts::{joined, read};
use fm_grammar::{Entry, Name, Score};
use fm_lex::{LexFault, Spot};
use fm_parse::ParseFault;
use std::alloc::{AllocError, Global};
use std::process::Abort;

const FOUR_VOICES: &str = "formula 1;
seed 42;
shape rubato = slope 100/1 by 1000 to 1100, breath 1/8,
               slope 100/1 by 1100 to 1000;
shape accel = slope 100/1 by 1000 to 900;
phrase bar { rhythm [1/4, 1/8, 1/8] { repeat 6 { play key (60 + n0); } } }
warp rubato { par {
  branch { channel 0 { artic [100, 90, 90] { repeat 200 { do bar; } } } }
  branch { channel 1 { gate 100 { repeat 400 { note c3, g3 1/2; } } } }
  branch { channel 2 { artic [50, 80] { loud [90, 60] {
    repeat 800 { note key (60 + pick(12)) 1/4; } } } } }
  branch { channel 3 { warp accel { repeat 200 { do bar; } } } }
} }
";

const EVERY_FORM: &str = "formula 1; # each line of the grammar
shape s = flat 1/4 by 500, slope ticks 10 by 1 to 2, pause 1/8, breath ticks 7;
phrase p { play key -1, key 5, key (r0); skip; }
note c4, ds5 1/4; rest ticks (pick(3)) max 9; control 7 -1; program (r7); bend 0;
set r7 = min(1, 2) + max(n0, r1) * -3 / less(1, same(2, 3)) % (4 - n15);
if r0 { do p; } else { }
if (1) { }
repeat (r0) max 4 { volume 100 { } }
warp s { par { branch { loud [1, 2] { } } branch { } } }
";

const READ: &[&str] = &[
    EVERY_FORM,
    "formula 1;",
    "formula 02; seed 7;",
    "formula 02; division 96; seed 7;",
    "formula 2; phrase division { } do division;",
    "formula 1; note c4 1/7;",
    "formula 1; note gs9 1/0;",
    "formula 1; do x; warp x { }",
    "formula 1; phrase a { } phrase a { }",
    "formula 1; rest ticks (n0) max 5;",
    "formula 1; repeat (pick(4)) max 4 { par { branch { } } }",
];

/// Texts of one line with their faults.
const REFUSED: &[(&str, Told)] = &[
    ("", ("expected", 1)),
    ("formula", ("expected", 8)),
    ("formula 1; note c4,", ("expected", 20)),
    ("formula 1; note c4 1/4", ("expected", 23)),
    ("formula 1; note c4 1/4; }", ("expected", 25)),
    ("formula 1; note 5A", ("expected", 17)),
    ("formula 1; seed 1; seed 2;", ("expected", 20)),
    ("formula 3; division 96;", ("expected", 12)),
    ("formula 1; division 96;", ("expected", 12)),
    ("formula 2; divisions 96;", ("expected", 12)),
    ("formula 2; division;", ("expected", 20)),
    ("formula 1; else { }", ("expected", 12)),
    ("formula 1; par { }", ("expected", 18)),
    ("formula 1; phrase p { shape s", ("expected", 23)),
    ("formula 1; control 7 - -1;", ("expected", 24)),
    ("formula 1; set r0 = 1 + ;", ("expected", 25)),
    ("formula 1; set r0 = min(1);", ("expected", 26)),
    ("formula 1; Note", ("bad byte", 12)),
    ("formula 1A", ("bad byte", 10)),
    ("formula 1a", ("bad number", 9)),
    ("formula 1x;", ("bad number", 9)),
];

/// How many blocks stand round a statement, the statement, and what is told of the text.
const BRACES: &[(u32, &str, Told)] = &[
    (64, "", READS),
    (64, "if 1 { }", ("too nested", 396)),
    (64, "else", ("expected", 396)),
    (62, "par { branch { } }", READS),
    (63, "par { branch { } }", ("too nested", 390)),
    (63, "repeat (1) max 1 { note c4 1/4; }", READS),
];

/// What stands so many times before an operand, the operand, what stands as often behind it, and
/// what is told of the text.
const TOKENS: &[(&str, u32, &str, &str, Told)] = &[
    ("-", 63, "1", "", READS),
    ("-", 64, "1", "", ("too nested", 84)),
    ("(", 31, "1", ")", READS),
    ("(", 32, "1", ")", ("too nested", 52)),
    ("pick(", 21, "1", ")", READS),
    ("pick(", 22, "1", ")", ("too nested", 126)),
    ("min(", 12, "1", ",2)", READS),
    ("less(", 13, "1", ",2)", ("too nested", 81)),
    ("max(1,", 12, "2", ")", READS),
    ("same(1,", 13, "2", ")", ("too nested", 105)),
    ("1+", 31, "-1", "", READS),
    ("1+", 32, "1", "", ("too nested", 84)),
    ("1*", 32, "1", "", ("too nested", 84)),
    ("1*", 31, "1 1", "", ("expected", 85)),
];

/// The deepest expressions, written as above.
const DEEPEST: &[(&str, u32, &str, &str)] = &[
    ("-", 63, "1", ""),
    ("(", 31, "1", ")"),
    ("pick(", 21, "1", ")"),
    ("same(1,", 12, "2", ")"),
];

/// A fault and its column.
type Told = (&'static str, u32);

const READS: Told = ("reads", 0);

// The fault of a text that does not read.
fn fault_of(alloc: Global, text: &str) -> Option<ParseFault> {
    match read(alloc, text) {
        Ok(_) => None,
        Err(fault) => Some(fault),
    }
}

// What the parser tells of a text of one line.
fn told(alloc: Global, text: &str) -> Told {
    match fault_of(alloc, text) {
        None => READS,
        Some(ParseFault::Expected { spot }) => ("expected", spot.column),
        Some(ParseFault::TooNested { spot }) => ("too nested", spot.column),
        Some(ParseFault::Lex(LexFault::BadByte { spot })) => ("bad byte", spot.column),
        Some(ParseFault::Lex(LexFault::BadNumber { spot })) => ("bad number", spot.column),
        Some(ParseFault::Memory) => ("out of memory", 0),
    }
}

// Compares what the parser tells of a text with this.
fn check_told<R: Abort>(rt: &R, alloc: Global, text: &str, want: Told) {
    same(rt, &(text, told(alloc, text)), &(text, want));
}

// The version of a score, its seed, and how many entries it has.
fn numbers(score: &Score) -> (u32, Option<u32>, usize) {
    let seed = score.head.seed.map(|number| number.value);
    (score.head.version.value, seed, score.entries.len())
}

// The name of a shape that is the first entry, and how many parts it has.
fn first_shape<'s>(score: &Score<'s>) -> Option<(Name<'s>, usize)> {
    match score.entries.first() {
        Some(Entry::Shape { name, parts }) => Some((*name, parts.len())),
        _ => None,
    }
}

// Whether a score is that of the four voices.
fn has_four_voices(score: &Score) -> bool {
    let rubato = Name {
        text: b"rubato".as_slice(),
        spot: Spot { line: 3, column: 7 },
    };
    numbers(score) == (1, Some(42), 4) && first_shape(score) == Some((rubato, 3))
}

#[test]
fn a_score_of_four_voices(rt: HostRuntime) {
    match read(rt.alloc(), FOUR_VOICES) {
        Ok(score) => assert!(rt; has_four_voices(&score)),
        Err(_) => assert!(rt; false),
    }
}

#[test]
fn texts_that_read(rt: HostRuntime) {
    for text in READ {
        check_told(&rt, rt.alloc(), text, READS);
    }
}

#[test]
fn faults_at_their_tokens(rt: HostRuntime) {
    for (text, fault) in REFUSED {
        check_told(&rt, rt.alloc(), text, *fault);
    }
}

#[test]
fn both_sides_of_the_limit_of_braces(rt: HostRuntime) -> Result<(), AllocError> {
    for (times, middle, want) in BRACES {
        let (begins, ends) = (("if 1 {", *times), ("}", *times));
        let parts = [("formula 1; ", 1), begins, (*middle, 1), ends];
        let text = joined(rt.alloc(), &parts)?;
        check_told(&rt, rt.alloc(), &text, *want);
    }
    Ok(())
}

#[test]
fn both_sides_of_the_limit_of_tokens(rt: HostRuntime) -> Result<(), AllocError> {
    for (begins, times, middle, ends, want) in TOKENS {
        let head = ("formula 1; set r0 = ", 1);
        let (begins, middle, ends) = ((*begins, *times), (*middle, 1), (*ends, *times));
        let text = joined(rt.alloc(), &[head, begins, middle, ends, (";", 1)])?;
        check_told(&rt, rt.alloc(), &text, *want);
    }
    Ok(())
}

// The parentheses round an amount, a duration or a count are no tokens of the expression in them,
// and each expression has its own count.
fn deepest(alloc: Global, deep: &str) -> Result<String, AllocError> {
    let note = format!(in alloc; "note key ({deep}), key ({deep}) ticks ({deep}) max 1;")?;
    let block = format!(in alloc; "repeat ({deep}) max 1 {{")?;
    let parts = [("formula 1;", 1), (&block, 64), (&note, 1), ("}", 64)];
    joined(alloc, &parts)
}

#[test]
fn the_deepest_texts(rt: HostRuntime) -> Result<(), AllocError> {
    let alloc = rt.alloc();
    for (begins, times, middle, ends) in DEEPEST {
        let (begins, middle, ends) = ((*begins, *times), (*middle, 1), (*ends, *times));
        let deep = joined(alloc, &[begins, middle, ends])?;
        let text = deepest(alloc, &deep)?;
        check_told(&rt, alloc, &text, READS);
    }
    Ok(())
}
