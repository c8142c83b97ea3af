//! Worked positions of nested levels, computed apart from this crate.

use crate::same::{same, same_number};
use crate::shapes::steady;
use fm_nest::{Nest, Place};
use std::test::Fail;

#[test]
fn a_nest_is_resumed_where_it_was_left(rt: HostRuntime) -> Result<(), Fail> {
    let half = steady(rt.alloc(), 1_920, 500)?;
    let warps = [half];
    let mut nest = Nest::new();
    nest.enter(0, 5);
    nest.enter(0, 7);
    let place = Place {
        depth: nest.depth(),
        origins: nest.origins(),
        position: 8,
    };
    same(&rt, &place.origins, &[5, 7, 0, 0, 0, 0, 0, 0]);
    let mut resumed = Nest::resume(&[0, 0], &place);
    same_number(&rt, resumed.onset(&warps, 8), 10);
    same_number(&rt, nest.onset(&warps, 8), 10);
    Ok(())
}

#[test]
fn a_level_goes_on_from_what_it_was_asked_for(rt: HostRuntime) -> Result<(), Fail> {
    let half = steady(rt.alloc(), 1_920, 500)?;
    let warps = [half];
    let mut nest = Nest::new();
    nest.enter(0, 0);
    nest.enter(0, 0);
    same_number(&rt, nest.ending(&warps, 100), 25);
    same_number(&rt, nest.leave(&warps, 50), 25);
    same_number(&rt, nest.ending(&warps, 100), 50);
    Ok(())
}
