//! A worker's quantum, the conductor's publish and halt, and what the worker sees of them.
ghost use Rattle.std.specs.Prelude.{◌≡◌};
ghost use Rattle.fm_core.specs.Floors.{floor_of};
ghost use Rattle.fm_core.specs.declared.due.Due.TheVariants.{Nothing};
ghost use Rattle.fm_core.specs.declared.floor.Floor.TheVariants.{At};
ghost use Rattle.fm_board.specs.Seats.{IsIdle};

use super::{claims, opened, plan_of_a_note, plays, sees};
use crate::same::same;
use fm_board::{Board, BoardSeat, Claim, Sweep};
use fm_core::{Floor, Tag};
use fm_strand::Quantum;
use std::process::Abort;
use std::test::*;

// The floor that this least pair makes.
fn floor_at(least: Option<(u64, u32)>) -> Floor
    ensures { result ≡ floor_of least }
{
    match least {
        Some((tick, _)) => Floor::At(tick),
        None => Floor::Done,
    }
}

// The publish of a sweep that has to be this one, over all processes.
fn publishes<R: Abort>(rt: &R, board: &Board, seat: &mut BoardSeat, wanted: Sweep)
    requires idle { IsIdle board.now.table.shared.table_id board.now.about seat.old }
    requires conductor { seat.old.mind.view.number ≡ 0 }
    requires settled { seat.old.mind.view.due ≡ Nothing }
    ensures idle { IsIdle board.now.table.shared.table_id board.now.about seat.new }
    ensures number { seat.new.mind.view.number ≡ 0 }
{
    let sweep = seat.sweep();
    same(rt, &sweep, &wanted);
    assert!(rt; sweep.next == board.plan().processes());
    board.publish(seat, floor_at(sweep.least));
}

// A load of the floor, which has to be this one.
fn paces<R: Abort>(rt: &R, board: &Board, seat: &mut BoardSeat, wanted: Floor)
    requires idle { IsIdle board.now.table.shared.table_id board.now.about seat.old }
    ensures idle { IsIdle board.now.table.shared.table_id board.now.about seat.new }
    ensures number { seat.new.mind.view.number ≡ seat.old.mind.view.number }
{
    same(rt, &board.pace(seat), &wanted);
}

// A load of the halt word.
fn heeds<R: Abort>(rt: &R, board: &Board, seat: &mut BoardSeat, wanted: bool)
    requires idle { IsIdle board.now.table.shared.table_id board.now.about seat.old }
    ensures idle { IsIdle board.now.table.shared.table_id board.now.about seat.new }
{
    same(rt, &board.heed(seat), &wanted);
}

// A quantum of process 0 up to tick 0, by a worker.
fn works<R: Abort>(rt: &R, board: &Board, seat: &mut BoardSeat)
    requires idle { IsIdle board.now.table.shared.table_id board.now.about seat.old }
    requires number { seat.old.mind.view.number ≡ 1 }
    requires paced { seat.old.mind.view.paced ≡ At 0 }
    ensures { IsIdle board.now.table.shared.table_id board.now.about seat.new }
{
    let seen = sees(rt, board, seat, (Tag::Home, 0, 0));
    match claims(rt, board, seat, &seen) {
        Claim::Held(berth) => plays(rt, board, seat, berth, 0, Quantum::Limit),
        Claim::Busy { .. } => panic!(rt; "nobody else has claimed it"),
    }
}

// A worker's quantum, a publish and a halt, and what the worker sees of them.
fn pace_and_halt<R: Abort>(rt: &R, board: &Board, zero: &mut BoardSeat, one: &mut BoardSeat)
    requires zero { IsIdle board.now.table.shared.table_id board.now.about zero.old }
    requires conductor { zero.old.mind.view.number ≡ 0 }
    requires settled { zero.old.mind.view.due ≡ Nothing }
    requires one { IsIdle board.now.table.shared.table_id board.now.about one.old }
    requires number { one.old.mind.view.number ≡ 1 }
    requires paced { one.old.mind.view.paced ≡ At 0 }
{
    works(rt, board, one);
    sees(rt, board, zero, (Tag::Home, 432, 0));
    let swept = Sweep {
        next: 1,
        least: Some((432, 0)),
    };
    paces(rt, board, one, Floor::At(0));
    publishes(rt, board, zero, swept);
    paces(rt, board, one, Floor::At(432));
    heeds(rt, board, one, false);
    board.halt(zero);
    heeds(rt, board, one, true);
}

#[test]
fn a_worker_sees_the_floor_and_the_halt(rt: HostRuntime) -> Result<(), Fail> {
    let (board, mut zero, mut one) = opened(rt.alloc(), plan_of_a_note(rt.alloc())?)?;
    pace_and_halt(&rt, &board, &mut zero, &mut one);
    Ok(())
}
