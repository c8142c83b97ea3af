//! Small pieces played to their end by the next steps alone.
use super::lines;
use crate::same::same;
use fm_core::Floor;
use fm_hall::{Hall, MAX_LEAD, Taken, are_valid};
use fm_msg::Event;
use std::alloc::AllocError;
use std::process::Abort;
use std::test::*;

/// A piece: seats, room and lead, the lines' ends, who waits for whom, and the times of the events
/// by process; then what is released, as time, process and index.
type Row = (
    (u32, u32, u64),
    &'static [u64],
    &'static [(u32, u32)],
    &'static [(u32, u64)],
    &'static [(u64, u32, u32)],
);

const PIECES: &[Row] = &[
    (
        (1, 1, 0),
        &[4, 7],
        &[(1, 0)],
        &[(0, 0), (0, 2), (1, 4), (1, 4), (1, 7)],
        &[(0, 0, 0), (2, 0, 1), (4, 1, 0), (4, 1, 1), (7, 1, 2)],
    ),
    (
        (2, 1, 0),
        &[0, 5],
        &[(1, 0)],
        &[(0, 0), (1, 3), (1, 3)],
        &[(0, 0, 0), (3, 1, 0), (3, 1, 1)],
    ),
    (
        (3, 1, 0),
        &[0, 3, 4, 7],
        &[(1, 0), (2, 0), (2, 1), (3, 1)],
        &[(1, 0), (1, 1), (1, 2), (3, 5), (3, 6)],
        &[(0, 1, 0), (1, 1, 1), (2, 1, 2), (5, 3, 0), (6, 3, 1)],
    ),
    (
        (1, 1, 1),
        &[6, 10],
        &[(1, 0)],
        &[(0, 0), (0, 4), (1, 7), (1, 8)],
        &[(0, 0, 0), (4, 0, 1), (7, 1, 0), (8, 1, 1)],
    ),
    (
        (2, 2, 1),
        &[3, 5, 5, 11],
        &[(1, 0), (2, 0), (3, 1), (3, 2)],
        &[(0, 0), (0, 1), (0, 3), (1, 4), (1, 4), (3, 9)],
        &[
            (0, 0, 0),
            (1, 0, 1),
            (3, 0, 2),
            (4, 1, 0),
            (4, 1, 1),
            (9, 3, 0),
        ],
    ),
    (
        (3, 2, 1),
        &[2, 6, 6, 8],
        &[(1, 0), (2, 0), (2, 1), (3, 0), (3, 1)],
        &[(0, 0), (0, 0), (0, 2), (1, 4), (1, 5)],
        &[(0, 0, 0), (0, 0, 1), (2, 0, 2), (4, 1, 0), (5, 1, 1)],
    ),
    (
        (1, 1, 3),
        &[5, 5, 9, 11],
        &[(1, 0), (2, 0), (2, 1), (3, 0), (3, 2)],
        &[(0, 1), (0, 3), (2, 5), (2, 5), (2, 7)],
        &[(1, 0, 0), (3, 0, 1), (5, 2, 0), (5, 2, 1), (7, 2, 2)],
    ),
    (
        (2, 1, 3),
        &[2, 2, 7, 7],
        &[(1, 0), (2, 1), (3, 0)],
        &[(0, 2), (2, 5), (2, 6), (2, 6)],
        &[(2, 0, 0), (5, 2, 0), (6, 2, 1), (6, 2, 2)],
    ),
    (
        (3, 1, 3),
        &[2, 6, 11],
        &[(1, 0), (2, 0), (2, 1)],
        &[(1, 2), (1, 2), (1, 6), (2, 6), (2, 9), (2, 10)],
        &[
            (2, 1, 0),
            (2, 1, 1),
            (6, 1, 2),
            (6, 2, 0),
            (9, 2, 1),
            (10, 2, 2),
        ],
    ),
    (
        (1, 1, 0),
        &[4, 4, 5],
        &[(1, 0), (2, 0)],
        &[(0, 1), (0, 4), (2, 4)],
        &[(1, 0, 0), (4, 0, 1), (4, 2, 0)],
    ),
    (
        (2, 2, 0),
        &[4, 9, 14],
        &[(1, 0), (2, 0), (2, 1)],
        &[(0, 0), (0, 3), (1, 4), (1, 8), (2, 11), (2, 11), (2, 12)],
        &[
            (0, 0, 0),
            (3, 0, 1),
            (4, 1, 0),
            (8, 1, 1),
            (11, 2, 0),
            (11, 2, 1),
            (12, 2, 2),
        ],
    ),
    (
        (3, 2, 0),
        &[0, 5, 9],
        &[(1, 0), (2, 0), (2, 1)],
        &[(1, 1), (1, 4), (2, 8), (2, 8), (2, 9)],
        &[(1, 1, 0), (4, 1, 1), (8, 2, 0), (8, 2, 1), (9, 2, 2)],
    ),
];

// Takes the next step, where there is one.
fn goes_on<R: Abort>(rt: &R, hall: &mut Hall) {
    if let Some(step) = hall.next_step() {
        same(rt, &hall.step(&step), &Taken::Taken);
    }
}

// Takes the next steps to the end.
fn goes_to_the_end<R: Abort>(rt: &R, hall: &mut Hall) {
    for _ in 0..400 {
        goes_on(rt, hall);
    }
    assert!(rt; hall.next_step().is_none());
    same(rt, &hall.floor(), &Floor::Done);
}

// Compares an event with its time, process and index.
fn is_event<R: Abort>(rt: &R, event: &Event, wanted: (u64, u32, u32)) {
    same(rt, &(event.time(), event.process(), event.index()), &wanted);
}

// Compares what is released.
fn are_events<R: Abort>(rt: &R, released: &[Event], piece: &[(u64, u32, u32)]) {
    assert!(rt; released.len() == piece.len());
    for i in 0..released.len() {
        is_event(rt, &released[i], piece[i]);
    }
}

// Opens a hall of a row.
fn opens<R: Abort + AllocGlobal>(rt: &R, row: &Row) -> Result<Hall, AllocError> {
    let made = lines(rt.alloc(), row.1, row.2, row.3)?;
    let (seats, room, lead) = row.0;
    assert!(rt; are_valid(&made));
    assert!(rt; 1 <= seats && seats <= 3 && 1 <= room && room <= 2 && lead <= MAX_LEAD);
    Hall::open(rt.alloc(), made, seats, room, lead)
}

// Plays a row to its end.
fn plays<R: Abort + AllocGlobal>(rt: &R, row: &Row) -> Result<(), AllocError> {
    let mut hall = opens(rt, row)?;
    goes_to_the_end(rt, &mut hall);
    are_events(rt, hall.released(), row.4);
    Ok(())
}

#[test]
fn the_next_steps_alone_play_small_pieces_to_their_end(rt: HostRuntime) -> Result<(), Fail> {
    for row in PIECES {
        plays(&rt, row)?;
    }
    Ok(())
}
