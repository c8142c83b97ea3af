//! The totals of texts, and both sides of each of their limits. The numbers were worked out by
//! hand.

use super::{Row, check_joined, check_rows, judged};
use crate::same::same;
use fm_check::Bounds;
use std::alloc::{AllocError, Global};
use std::process::Abort;

/// Processes, operations, length, events and steps.
type Totals = (u32, u32, u64, u32, u32);

/// Texts with their totals.
const TOTALS: &[(&str, Totals)] = &[
    ("formula 1;", (1, 1, 0, 0, 1)),
    (
        "formula 1; shape w = flat 1/4 by 1000, breath ticks 120; \
             gate 100 { warp w { note c4 1/4; note d4 1/4; } }",
        (1, 6, 1080, 4, 9),
    ),
    // Notes that overlap count as others do.
    (
        "formula 1; shape w = flat 1/4 by 1000, pause ticks 120; \
             gate 400 { warp w { note c4 1/4; note d4 1/4; } }",
        (1, 6, 1080, 4, 9),
    ),
    (
        "formula 1; shape b = breath ticks 120; shape f = flat 1/1 by 500; \
             gate 100 { warp b { warp f { note c4 ticks 1; } } }",
        (1, 7, 120, 2, 8),
    ),
    (
        "formula 1; repeat 1365 { par { branch { } branch { } } }",
        (4096, 5462, 0, 0, 4096),
    ),
    // The totals of version 2 go by its division, and allow for more processes.
    (
        "formula 2; repeat 5461 { par { branch { } branch { } } }",
        (16384, 21846, 0, 0, 16384),
    ),
    ("formula 2; division 96; rest 1/1;", (1, 2, 384, 0, 2)),
    (
        "formula 1; repeat 1000000 { rest ticks 1000000; } \
             repeat 99511 { rest ticks 1000000; } rest ticks 627776;",
        (1, 8, 1_099_511_627_776, 0, 2_199_028),
    ),
    // The list of a phrase that nothing brings in counts for the lengths of all rhythms.
    (
        "formula 1; phrase p { rhythm [1/1] { } } rhythm [1/4] { play c4; skip; }",
        (1, 5, 3840, 2, 7),
    ),
    (
        "formula 1; if 1 { rest ticks 9; } else { note c4 ticks 3; }",
        (1, 5, 9, 2, 6),
    ),
    (
        "formula 1; phrase p { note c4 ticks 3; } do p; do p;",
        (1, 5, 6, 4, 7),
    ),
    // No rounds hide all of a body but its operations.
    (
        "formula 1; repeat 0 { par { branch { note c4 1/1; } } }",
        (1, 2, 0, 0, 1),
    ),
];

/// Texts at and past each limit.
const LIMITS: &[Row] = &[
    // 4,096 processes and one more.
    (
        "formula 1; repeat 1365 { par { branch { } branch { } } }",
        (0, 0, 0),
    ),
    ("formula 1; repeat 2048 { par { branch { } } }", (13, 1, 12)),
    // In version 2, 16,384 and one more.
    (
        "formula 2; repeat 5461 { par { branch { } branch { } } }",
        (0, 0, 0),
    ),
    ("formula 2; repeat 8192 { par { branch { } } }", (13, 1, 12)),
    // 2^40 ticks and one more.
    (
        "formula 1; repeat 1000000 { rest ticks 1000000; } \
             repeat 99511 { rest ticks 1000000; } rest ticks 627776;",
        (0, 0, 0),
    ),
    (
        "formula 1; repeat 1000000 { rest ticks 1000000; } \
             repeat 99511 { rest ticks 1000000; } rest ticks 627777;",
        (15, 1, 88),
    ),
    // 4,000,000 events and one more.
    (
        "formula 1; repeat 1000000 { note c4, d4 ticks 0; }",
        (0, 0, 0),
    ),
    (
        "formula 1; repeat 1000000 { note c4, d4 ticks 0; } program 1;",
        (16, 1, 52),
    ),
    (
        "formula 1; repeat 1000000 { note c4, d4, e4 ticks 0; }",
        (16, 1, 12),
    ),
    // 16,777,216 steps and one more.
    (
        "formula 1; repeat 1000000 { repeat 13 { } } repeat 777211 { }",
        (0, 0, 0),
    ),
    (
        "formula 1; repeat 1000000 { repeat 13 { } } repeat 777212 { }",
        (17, 1, 45),
    ),
    ("formula 1; repeat 1000000 { repeat 16 { } }", (17, 1, 12)),
    // Operations beside other totals: the lowest number counts.
    (
        "formula 1; repeat 1000000 { repeat 1000000 { repeat 0 { par { branch { } } } } }",
        (14, 1, 12),
    ),
    (
        "formula 1; repeat 1000000 { repeat 1000000 { par { branch { } } } }",
        (13, 1, 12),
    ),
];

// The totals as the check gives them.
fn bounds_of(totals: &Totals) -> Bounds {
    let (processes, operations, length, events, steps) = *totals;
    Bounds {
        processes,
        operations,
        length,
        events,
        steps,
    }
}

// The totals of a text that is accepted.
fn accepted(alloc: Global, text: &str) -> Option<Bounds> {
    match judged(alloc, text) {
        Ok(bounds) => Some(bounds),
        Err(_) => None,
    }
}

// Compares the totals of a text with these.
fn has_totals<R: Abort + AllocGlobal>(rt: &R, text: &str, totals: &Totals) {
    let wanted = Some(bounds_of(totals));
    same(rt, &(text, accepted(rt.alloc(), text)), &(text, wanted));
}

#[test]
fn totals_are_counted(rt: HostRuntime) {
    for (text, want) in TOTALS {
        has_totals(&rt, text, want);
    }
}

#[test]
fn each_limit_is_kept_and_passed(rt: HostRuntime) {
    check_rows(&rt, LIMITS);
}

/// Sixteen phrases, each of which brings in the one before twice, from one that is empty: `q16` has
/// 131,070 operations.
const DOUBLED: &str = "formula 1; phrase q0 { }
phrase q1 { do q0; do q0; } phrase q2 { do q1; do q1; } phrase q3 { do q2; do q2; }
phrase q4 { do q3; do q3; } phrase q5 { do q4; do q4; } phrase q6 { do q5; do q5; }
phrase q7 { do q6; do q6; } phrase q8 { do q7; do q7; } phrase q9 { do q8; do q8; }
phrase q10 { do q9; do q9; } phrase q11 { do q10; do q10; } phrase q12 { do q11; do q11; }
phrase q13 { do q12; do q12; } phrase q14 { do q13; do q13; } phrase q15 { do q14; do q14; }
phrase q16 { do q15; do q15; }
";

/// What makes as many operations of the sixteen phrases as there may be.
const MOST: &str = "do q16; do q16; rest ticks 0;";

#[test]
fn as_many_operations_as_may_be_and_one_more(rt: HostRuntime) -> Result<(), AllocError> {
    check_joined(&rt, &[(DOUBLED, 1), (MOST, 1)], (0, 0, 0))?;
    check_joined(
        &rt,
        &[(DOUBLED, 1), (MOST, 1), (" rest ticks 0;", 1)],
        (14, 8, 31),
    )
}
