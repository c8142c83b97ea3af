//! Faults of names, numbers and places of texts, both sides of each limit.

use super::{Row, Verdict, check_joined, check_rows};
use crate::texts::Times;
use std::alloc::AllocError;

/// Names, of which each is defined once, before it is used.
const NAMES: &[Row] = &[
    (
        "formula 1; shape a = pause ticks 1; phrase a { }",
        (5, 1, 44),
    ),
    (
        "formula 1; phrase a { } shape a = pause ticks 1;",
        (5, 1, 31),
    ),
    (
        "formula 1; shape a = pause ticks 1; phrase b { }",
        (0, 0, 0),
    ),
    ("formula 1; do x;", (6, 1, 15)),
    ("formula 1; phrase x { } do x;", (0, 0, 0)),
    ("formula 1; phrase x { do x; }", (6, 1, 26)),
    ("formula 1; shape w = pause ticks 1; do w;", (6, 1, 40)),
    ("formula 1; phrase w { } warp w { }", (6, 1, 30)),
    ("formula 1; shape w = pause ticks 1; warp w { }", (0, 0, 0)),
];

/// Numbers, both sides of each range.
const NUMBERS: &[Row] = &[
    ("formula 2;", (0, 0, 0)),
    ("formula 3;", (7, 1, 9)),
    ("formula 0;", (7, 1, 9)),
    ("formula 2; division 23;", (7, 1, 21)),
    ("formula 2; division 24;", (0, 0, 0)),
    ("formula 2; division 960;", (0, 0, 0)),
    ("formula 2; division 961;", (7, 1, 21)),
    ("formula 2; division 96; rest 1/384;", (0, 0, 0)),
    ("formula 2; division 96; rest 1/1920;", (8, 1, 30)),
    ("formula 1; rest ticks 1000000;", (0, 0, 0)),
    ("formula 1; rest ticks 1000001;", (7, 1, 23)),
    ("formula 1; rest 520/1;", (0, 0, 0)),
    ("formula 1; rest 521/1;", (7, 1, 17)),
    ("formula 1; rest 1/0;", (7, 1, 17)),
    ("formula 1; note c4 1/7;", (8, 1, 20)),
    ("formula 1; rest 1/1920;", (0, 0, 0)),
    ("formula 1; rest 1/1921;", (8, 1, 17)),
    ("formula 1; rest 0/7;", (0, 0, 0)),
    ("formula 1; rest 999999999/7;", (8, 1, 17)),
    ("formula 1; rest ticks (1) max 1000000;", (0, 0, 0)),
    ("formula 1; rest ticks (1) max 1000001;", (7, 1, 31)),
    ("formula 1; shape a = flat ticks 1 by 1;", (0, 0, 0)),
    ("formula 1; shape a = flat ticks 0 by 1;", (7, 1, 33)),
    ("formula 1; shape a = flat 0/4 by 1;", (7, 1, 27)),
    ("formula 1; shape a = slope ticks 0 by 1 to 1;", (7, 1, 34)),
    ("formula 1; shape a = pause ticks 0, breath 0/1;", (0, 0, 0)),
    ("formula 1; shape a = flat 1/4 by 0;", (7, 1, 34)),
    ("formula 1; shape a = flat 1/4 by 1000000;", (0, 0, 0)),
    ("formula 1; shape a = flat 1/4 by 1000001;", (7, 1, 34)),
    ("formula 1; shape a = slope 1/4 by 1 to 0;", (7, 1, 40)),
    (
        "formula 1; shape a = slope 1/4 by 1 to 1000001;",
        (7, 1, 40),
    ),
    ("formula 1; note g9 1/4;", (0, 0, 0)),
    ("formula 1; note gs9 1/4;", (7, 1, 17)),
    ("formula 1; note key 127 1/4;", (0, 0, 0)),
    ("formula 1; note key 128 1/4;", (7, 1, 21)),
    ("formula 1; note key -1 1/4;", (7, 1, 21)),
    ("formula 1; note key -0 1/4;", (0, 0, 0)),
    ("formula 1; control 127 127;", (0, 0, 0)),
    ("formula 1; control 128 0;", (7, 1, 20)),
    ("formula 1; control 0 128;", (7, 1, 22)),
    ("formula 1; program 128;", (7, 1, 20)),
    ("formula 1; program -1;", (7, 1, 20)),
    ("formula 1; bend -8192; bend 8191;", (0, 0, 0)),
    ("formula 1; bend -8193;", (7, 1, 17)),
    ("formula 1; bend 8192;", (7, 1, 17)),
    ("formula 1; channel 15 { }", (0, 0, 0)),
    ("formula 1; channel 16 { }", (7, 1, 20)),
    ("formula 1; volume 1 { } volume 127 { }", (0, 0, 0)),
    ("formula 1; volume 0 { }", (7, 1, 19)),
    ("formula 1; volume 128 { }", (7, 1, 19)),
    ("formula 1; gate 0 { } gate 400 { }", (0, 0, 0)),
    ("formula 1; gate 401 { }", (7, 1, 17)),
    ("formula 1; artic [0, 400] { } loud [1, 127] { }", (0, 0, 0)),
    ("formula 1; artic [400, 401] { }", (7, 1, 24)),
    ("formula 1; loud [0] { }", (7, 1, 18)),
    ("formula 1; loud [128] { }", (7, 1, 18)),
    ("formula 1; repeat 1000000 { }", (0, 0, 0)),
    ("formula 1; repeat 1000001 { }", (7, 1, 19)),
    ("formula 1; repeat (1) max 1000001 { }", (7, 1, 27)),
    ("formula 1; set r0 = 1000000;", (0, 0, 0)),
    ("formula 1; set r0 = 1 + -1000001;", (7, 1, 26)),
    (
        "formula 1; note c4, c4, c4, c4, c4, c4, c4, c4, c4, c4, c4, c4, c4, c4, c4, c4 1/4;",
        (0, 0, 0),
    ),
    (
        "formula 1; note c4, c4, c4, c4, c4, c4, c4, c4, c4, c4, c4, c4, c4, c4, c4, c4, key (2000000) 1/4;",
        (7, 1, 81),
    ),
    (
        "formula 1; phrase p { rest ticks 1000001; } do x;",
        (7, 1, 34),
    ),
];

/// Statements in places where they may stand and where they may not.
const STATEMENTS: &[Row] = &[
    (
        "formula 1; repeat (pick(4)) max 4 { par { branch { } } }",
        (9, 1, 37),
    ),
    ("formula 1; repeat 4 { par { branch { } } }", (0, 0, 0)),
    ("formula 1; if 1 { par { branch { } } }", (9, 1, 19)),
    (
        "formula 1; if 1 { } else { par { branch { } } }",
        (9, 1, 28),
    ),
    (
        "formula 1; phrase p { par { branch { } } } if 1 { do p; }",
        (9, 1, 51),
    ),
    (
        "formula 1; phrase p { if 1 { par { branch { } } } } do p;",
        (9, 1, 53),
    ),
    (
        "formula 1; phrase p { par { branch { } } } do p;",
        (0, 0, 0),
    ),
    ("formula 1; play c4;", (10, 1, 12)),
    ("formula 1; skip;", (10, 1, 12)),
    ("formula 1; rhythm [1/4] { play c4; skip; }", (0, 0, 0)),
    ("formula 1; rhythm [1/4] { } skip;", (10, 1, 29)),
    ("formula 1; artic [50] { skip; }", (10, 1, 25)),
    ("formula 1; phrase p { skip; } do p;", (10, 1, 31)),
    (
        "formula 1; phrase p { skip; } rhythm [1/4] { do p; }",
        (0, 0, 0),
    ),
    ("formula 1; phrase p { skip; }", (0, 0, 0)),
    ("formula 1; rest ticks (n0) max 5;", (11, 1, 12)),
    ("formula 1; repeat 1 { rest ticks (n0) max 5; }", (0, 0, 0)),
    (
        "formula 1; repeat 1 { rest ticks (n1) max 5; }",
        (11, 1, 23),
    ),
    ("formula 1; repeat (n0) max 1 { }", (11, 1, 12)),
    (
        "formula 1; repeat 1 { repeat (n0) max 1 { set r0 = n1; } }",
        (0, 0, 0),
    ),
    (
        "formula 1; phrase p { set r0 = n0; } repeat 1 { do p; }",
        (0, 0, 0),
    ),
    ("formula 1; phrase p { set r0 = n0; } do p;", (11, 1, 38)),
    (
        "formula 1; phrase p { repeat 1 { set r0 = n1; } } repeat 1 { do p; }",
        (0, 0, 0),
    ),
    (
        "formula 1; phrase p { set r0 = n9; skip; if 1 { par { branch { } } } } do p;",
        (9, 1, 72),
    ),
    (
        "formula 1; phrase p { set r0 = n9; skip; } do p;",
        (10, 1, 44),
    ),
    ("formula 1; set r0 = n0; skip;", (11, 1, 12)),
];

/// Texts in parts: a head, blocks so many times, inside them others, what stands inside, and the
/// ends; and the verdict.
const BLOCKS: &[(&[Times], Verdict)] = &[
    (
        &[("formula 1; ", 1), ("repeat 1 {", 16), ("}", 16)],
        (0, 0, 0),
    ),
    (
        &[("formula 1; ", 1), ("repeat 1 {", 17), ("}", 17)],
        (12, 1, 172),
    ),
    (
        &[
            ("formula 1; ", 1),
            ("artic [1] {", 8),
            ("repeat 1 {", 8),
            ("}", 16),
        ],
        (0, 0, 0),
    ),
    (
        &[
            ("formula 1; ", 1),
            ("artic [1] {", 8),
            ("repeat 1 {", 9),
            ("}", 17),
        ],
        (12, 1, 180),
    ),
    (
        &[
            ("formula 1; ", 1),
            ("loud [1] {", 16),
            ("rhythm [1/1] {", 1),
            ("}", 17),
        ],
        (12, 1, 172),
    ),
    (
        &[
            ("formula 1; ", 1),
            ("gate 1 {", 30),
            ("volume 1 {", 34),
            ("}", 64),
        ],
        (0, 0, 0),
    ),
    (
        &[
            ("formula 1; shape w = pause ticks 1; ", 1),
            ("warp w {", 8),
            ("}", 8),
        ],
        (0, 0, 0),
    ),
    (
        &[
            ("formula 1; shape w = pause ticks 1; ", 1),
            ("warp w {", 8),
            ("warp w {", 1),
            ("}", 9),
        ],
        (12, 1, 101),
    ),
    (
        &[
            ("formula 1; ", 1),
            ("artic [1] {", 16),
            ("repeat (n0) max 1 {", 1),
            ("}", 17),
        ],
        (11, 1, 188),
    ),
    (
        &[
            (
                "formula 1; phrase p { channel 0 { channel 0 { channel 0 { channel 0 { } } } } } ",
                1,
            ),
            ("gate 1 {", 59),
            ("do p;", 1),
            ("}", 59),
        ],
        (0, 0, 0),
    ),
    (
        &[
            (
                "formula 1; phrase p { channel 0 { channel 0 { channel 0 { channel 0 { } } } } } ",
                1,
            ),
            ("gate 1 {", 60),
            ("do p;", 1),
            ("}", 60),
        ],
        (12, 1, 561),
    ),
    (
        &[
            ("formula 1; phrase p { par { branch { } } } ", 1),
            ("gate 1 {", 61),
            ("do p;", 1),
            ("}", 61),
        ],
        (0, 0, 0),
    ),
    (
        &[
            ("formula 1; phrase p { par { branch { } } } ", 1),
            ("gate 1 {", 62),
            ("do p;", 1),
            ("}", 62),
        ],
        (12, 1, 540),
    ),
    (
        &[
            (
                "formula 1; shape w = pause ticks 1; phrase p { warp w { } } ",
                1,
            ),
            ("warp w {", 7),
            ("do p;", 1),
            ("}", 7),
        ],
        (0, 0, 0),
    ),
    (
        &[
            (
                "formula 1; shape w = pause ticks 1; phrase p { warp w { } } ",
                1,
            ),
            ("warp w {", 8),
            ("do p;", 1),
            ("}", 8),
        ],
        (12, 1, 125),
    ),
];

/// The same of a head, an entry so many times and a tail.
const LISTS: &[(&[Times], Verdict)] = &[
    (
        &[("formula 1; artic [", 1), ("1, ", 255), ("1] { }", 1)],
        (0, 0, 0),
    ),
    (
        &[("formula 1; artic [", 1), ("1, ", 256), ("1] { }", 1)],
        (7, 1, 787),
    ),
    (
        &[("formula 1; loud [", 1), ("1, ", 256), ("1] { }", 1)],
        (7, 1, 786),
    ),
    (
        &[("formula 1; rhythm [", 1), ("1/1, ", 255), ("1/1] { }", 1)],
        (0, 0, 0),
    ),
    (
        &[("formula 1; rhythm [", 1), ("1/1, ", 256), ("1/0] { }", 1)],
        (7, 1, 1300),
    ),
    (
        &[
            ("formula 1; shape a = ", 1),
            ("pause 1/1, ", 255),
            ("pause 1/1;", 1),
        ],
        (0, 0, 0),
    ),
    (
        &[
            ("formula 1; shape a = ", 1),
            ("pause 1/1, ", 256),
            ("pause 1/0;", 1),
        ],
        (7, 1, 2844),
    ),
];

#[test]
fn names_are_defined_once_and_before(rt: HostRuntime) {
    check_rows(&rt, NAMES);
}

#[test]
fn numbers_keep_their_ranges(rt: HostRuntime) {
    check_rows(&rt, NUMBERS);
}

#[test]
fn statements_stand_where_they_may(rt: HostRuntime) {
    check_rows(&rt, STATEMENTS);
}

#[test]
fn blocks_lie_so_deep_and_no_deeper(rt: HostRuntime) -> Result<(), AllocError> {
    for (parts, want) in BLOCKS {
        check_joined(&rt, parts, *want)?;
    }
    Ok(())
}

#[test]
fn lists_have_so_many_entries_and_no_more(rt: HostRuntime) -> Result<(), AllocError> {
    for (parts, want) in LISTS {
        check_joined(&rt, parts, *want)?;
    }
    Ok(())
}
