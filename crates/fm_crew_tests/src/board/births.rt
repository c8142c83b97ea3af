//! Three voices between two empty processes: one seat ends the first process, and then both start
//! a voice, the same one.
ghost use Rattle.std.specs.Prelude.{◌≡◌};
ghost use Rattle.fm_core.specs.declared.floor.Floor.TheVariants.{At};
ghost use Rattle.fm_board.specs.Seats.{IsIdle};

use super::{claims, is_busy, opened, plays, sees};
use crate::same::same;
use crate::voices::plan_of_three_voices;
use fm_board::{Board, BoardSeat, Claim, Recalled, Started};
use fm_core::Tag;
use fm_strand::Quantum;
use std::process::Abort;
use std::test::*;

// A start that finds this predecessor not at its end, with this word.
fn is_not_yet<R: Abort>(
    rt: &R,
    board: &Board,
    seat: &mut BoardSeat,
    process: u32,
    wanted: (u32, Tag, u64, u32),
)
    requires idle { IsIdle board.now.table.shared.table_id board.now.about seat.old }
    ensures idle { IsIdle board.now.table.shared.table_id board.now.about seat.new }
{
    assert!(rt; process < board.plan().processes());
    match board.start(seat, process) {
        Started::NotYet { predecessor, found } => {
            same(
                rt,
                &(predecessor, found.tag, found.clock, found.seat),
                &wanted,
            );
        }
        Started::Held(_) | Started::Busy { .. } => panic!(rt; "a predecessor is not at its end"),
    }
}

// A start that gets the process.
fn starts<R: Abort>(rt: &R, board: &Board, seat: &mut BoardSeat, process: u32)
    requires { IsIdle board.now.table.shared.table_id board.now.about seat.old }
{
    assert!(rt; process < board.plan().processes());
    match board.start(seat, process) {
        Started::Held(berth) => same(rt, &(berth.process, berth.strand.clock()), &(process, 0)),
        Started::NotYet { .. } | Started::Busy { .. } => panic!(rt; "nobody else has started it"),
    }
}

// A start that finds the process started before.
fn is_started<R: Abort>(
    rt: &R,
    board: &Board,
    seat: &mut BoardSeat,
    process: u32,
    wanted: (Tag, u64, u32),
)
    requires idle { IsIdle board.now.table.shared.table_id board.now.about seat.old }
    ensures idle { IsIdle board.now.table.shared.table_id board.now.about seat.new }
{
    assert!(rt; process < board.plan().processes());
    match board.start(seat, process) {
        Started::Busy { found } => same(rt, &(found.tag, found.clock, found.seat), &wanted),
        Started::Held(_) | Started::NotYet { .. } => panic!(rt; "the process is in other hands"),
    }
}

// A recall of a process that ended at this position, outside all warps.
fn ended_at<R: Abort>(rt: &R, board: &Board, seat: &mut BoardSeat, process: u32, position: u64)
    requires { IsIdle board.now.table.shared.table_id board.now.about seat.old }
{
    assert!(rt; process < board.plan().processes());
    match board.recall(seat, process) {
        Recalled::There(place) => same(rt, &(place.depth, place.position), &(0, position)),
        Recalled::NotYet { .. } => panic!(rt; "the process ended"),
    }
}

// One seat ends the first process while the other finds it busy, and then both start a voice.
fn start_in_turn<R: Abort>(rt: &R, board: &Board, zero: &mut BoardSeat, one: &mut BoardSeat)
    requires zero { IsIdle board.now.table.shared.table_id board.now.about zero.old }
    requires one { IsIdle board.now.table.shared.table_id board.now.about one.old }
    requires number { one.old.mind.view.number ≡ 1 }
    requires paced { one.old.mind.view.paced ≡ At 0 }
{
    let seen = sees(rt, board, zero, (Tag::Home, 0, 0));
    let also = sees(rt, board, one, (Tag::Home, 0, 0));
    match claims(rt, board, one, &also) {
        Claim::Held(berth) => {
            is_busy(rt, board, zero, &seen, (Tag::Out, 0, 1));
            is_not_yet(rt, board, zero, 1, (0, Tag::Out, 0, 1));
            plays(rt, board, one, berth, 0, Quantum::Ended);
        }
        Claim::Busy { .. } => panic!(rt; "nobody else has claimed it"),
    }
    start_again(rt, board, zero, one);
}

// Both start a voice, the same one, once the first process has ended.
fn start_again<R: Abort>(rt: &R, board: &Board, zero: &mut BoardSeat, one: &mut BoardSeat)
    requires zero { IsIdle board.now.table.shared.table_id board.now.about zero.old }
    requires one { IsIdle board.now.table.shared.table_id board.now.about one.old }
{
    sees(rt, board, zero, (Tag::Drained, 0, 0));
    starts(rt, board, zero, 1);
    is_started(rt, board, one, 1, (Tag::Out, 0, 0));
    ended_at(rt, board, one, 0, 0);
}

#[test]
fn a_voice_starts_once_the_first_process_ended(rt: HostRuntime) -> Result<(), Fail> {
    let (board, mut zero, mut one) = opened(rt.alloc(), plan_of_three_voices(rt.alloc())?)?;
    start_in_turn(&rt, &board, &mut zero, &mut one);
    Ok(())
}
