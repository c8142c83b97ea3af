//! The lines of a branch in a level, worked out by hand.

use crate::position::branch_plan;
use crate::same::same;
use fm_play::{Line, lines, start_of};
use std::process::Abort;
use std::test::Fail;

/// Of a process the times of its events, the processes that it waits for, and its end.
type Row = (&'static [u64], &'static [u32], u64);

const LINES: &[Row] = &[(&[], &[], 50), (&[50, 266], &[0], 290), (&[], &[1], 290)];

// Compares a line with its row.
fn is_line<R: Abort>(rt: &R, line: &Line, row: &Row) {
    let (times, waits, end) = *row;
    same(rt, &line.events.as_slice().len(), &times.len());
    for (event, time) in line.events.as_slice().iter().zip(times) {
        same(rt, &event.time(), time);
    }
    let found = (line.predecessors.as_slice(), line.end);
    same(rt, &found, &(waits, end));
}

// Compares lines with their rows.
fn are_lines<R: Abort>(rt: &R, made: &[Line], rows: &[Row]) {
    same(rt, &made.len(), &rows.len());
    for (line, row) in made.iter().zip(rows) {
        is_line(rt, line, row);
    }
}

#[test]
fn each_line_has_its_events_and_its_end(rt: HostRuntime) -> Result<(), Fail> {
    let plan = branch_plan(rt.alloc())?;
    let made = lines(rt.alloc(), &plan)?;
    are_lines(&rt, &made, LINES);
    Ok(())
}

#[test]
fn a_process_starts_where_the_one_before_it_ends(rt: HostRuntime) -> Result<(), Fail> {
    let plan = branch_plan(rt.alloc())?;
    assert!(rt; plan.processes() == 3);
    let place = start_of(rt.alloc(), &plan, 2)?;
    same(&rt, &(place.depth, place.position), &(1, 580));
    Ok(())
}
