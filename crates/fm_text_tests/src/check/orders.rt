//! Texts with faults of two walks, of which the earlier walk's stands later in the text.

use super::{Row, check_rows};

const ORDERS: &[Row] = &[
    // names and numbers before where statements stand
    ("formula 1; skip; do x;", (6, 1, 21)),
    ("formula 1; note key (n0) 1/4; note c4 1/7;", (8, 1, 39)),
    // names and numbers before totals
    (
        "formula 1; repeat 1000000 { note c4, d4, e4 ticks 0; } do x;",
        (6, 1, 59),
    ),
    (
        "formula 1; repeat 2048 { par { branch { } } } channel 16 { }",
        (7, 1, 55),
    ),
    // where statements stand before totals
    (
        "formula 1; repeat 1000000 { note c4, d4, e4 ticks 0; } skip;",
        (10, 1, 56),
    ),
    (
        "formula 1; repeat 2048 { par { branch { } } } if 1 { par { branch { } } }",
        (9, 1, 54),
    ),
    // all three
    (
        "formula 1; repeat 1000000 { note c4, d4, e4 ticks 0; } skip; do x;",
        (6, 1, 65),
    ),
];

#[test]
fn the_earliest_walk_is_told(rt: HostRuntime) {
    check_rows(&rt, ORDERS);
}
