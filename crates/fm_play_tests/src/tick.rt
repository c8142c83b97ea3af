//! Worked values, computed apart from `fm_tick`, and the greatest ones.

use crate::same::{same, same_number};
use fm_tick::{MAX_STRETCH, MAX_TICK, Stretch, flat, sloped};
use std::process::Abort;

/// Thousandths, and those of the stretch that they make.
const STRETCHES: &[(u32, Option<u32>)] = &[
    (0, None),
    (1, Some(1)),
    (MAX_STRETCH, Some(MAX_STRETCH)),
    (MAX_STRETCH + 1, None),
];

#[test]
fn stretches_lie_between_one_and_the_greatest(rt: HostRuntime) {
    for (thousandths, want) in STRETCHES {
        same(&rt, &Stretch::new(*thousandths).map(Stretch::get), want);
    }
}

/// Positions and steady stretches, and where they put them.
const STEADY: &[(u64, u32, u64)] = &[
    (0, 1, 0),
    (999, 1, 0),
    (1_000, 1, 1),
    (10, 333, 3),
    (3, 333, 0),
    (MAX_TICK - 1, 999_999, 1_099_510_528_263_372),
    (MAX_TICK, MAX_STRETCH, 1_099_511_627_776_000),
];

// A steady stretch puts a position there.
fn is_steady<R: Abort>(rt: &R, row: &(u64, u32, u64)) {
    let (x, thousandths, want) = *row;
    assert!(rt; x <= MAX_TICK);
    match Stretch::new(thousandths) {
        Some(stretch) => same_number(rt, flat(x, stretch), want),
        None => panic!(rt; "these thousandths make a stretch"),
    }
}

#[test]
fn steady_stretches_round_down(rt: HostRuntime) {
    for row in STEADY {
        is_steady(&rt, row);
    }
}

/// A position, a length, and the stretches at its ends, and where the slope puts the position.
type Slope = (u64, u64, u32, u32, u64);

const SLOPES: &[Slope] = &[
    (480, 960, 1_000, 2_000, 600),
    (960, 960, 1_000, 2_000, 1_440),
    (1, 1, 1_000, 2_000, 1),
    (1, 2, 2_000, 1_000, 1),
    (2, 2, 2_000, 1_000, 3),
    (3, 7, MAX_STRETCH, 1, 2_357),
    (7, 7, 1, MAX_STRETCH, 3_500),
    (10, 20, 333, 333, 3),
    (999_999, 1_000_000, MAX_STRETCH, 1, 500_000_499),
    (1_000_001, 1_000_001, 1, MAX_STRETCH, 500_001_000),
    (MAX_TICK, MAX_TICK, MAX_STRETCH, 1, 549_756_363_643_813),
    (MAX_TICK - 1, MAX_TICK, 1, MAX_STRETCH, 549_756_363_642_813),
    (
        MAX_TICK,
        MAX_TICK,
        MAX_STRETCH,
        MAX_STRETCH,
        1_099_511_627_776_000,
    ),
];

// A slope puts a position there.
fn is_sloped<R: Abort>(rt: &R, row: &Slope) {
    let (x, v, from, to, want) = *row;
    assert!(rt; 1 <= v && v <= MAX_TICK && x <= v);
    match (Stretch::new(from), Stretch::new(to)) {
        (Some(start), Some(end)) => same_number(rt, sloped(x, v, start, end), want),
        _ => panic!(rt; "these thousandths make stretches"),
    }
}

#[test]
fn slopes_round_down(rt: HostRuntime) {
    for row in SLOPES {
        is_sloped(&rt, row);
    }
}
