//! Worked positions, computed by hand.

use crate::same::same;
use crate::shapes::steady;
use fm_locate::{Located, least, locate};
use fm_nest::Place;
use fm_tick::MAX_TICK;
use fm_warp::Warp;
use std::process::Abort;
use std::test::Fail;

/// Ticks, and the least position there or later.
type Row = (u64, Option<u64>);

/// A third of the time.
const THIRD: &[Row] = &[
    (0, Some(0)),
    (1, Some(4)),
    (3, Some(10)),
    (333, Some(1_000)),
    (334, Some(1_001)),
];

// Compares the least position of a deformation.
fn is_least<R: Abort>(rt: &R, warp: &Warp, row: &Row) {
    assert!(rt; row.0 <= MAX_TICK);
    same(rt, &least(warp, row.0), &row.1);
}

#[test]
fn the_least_position_is_found(rt: HostRuntime) -> Result<(), Fail> {
    let third = steady(rt.alloc(), 1_000, 333)?;
    for row in THIRD {
        is_least(&rt, &third, row);
    }
    Ok(())
}

#[test]
fn one_level_from_the_beginning(rt: HostRuntime) -> Result<(), Fail> {
    let half = steady(rt.alloc(), 1_000, 500)?;
    let place = Place {
        depth: 1,
        origins: [0; 8],
        position: 100,
    };
    let wanted = Located::There {
        positions: [120, 0, 0, 0, 0, 0, 0, 0],
    };
    same(&rt, &locate(&[0], &[half], &place, 60), &wanted);
    Ok(())
}
