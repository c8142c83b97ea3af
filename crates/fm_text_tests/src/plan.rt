//! Programs of small outlines.

use crate::texts::read;
use fm_outline::outline_of;
use fm_plan::{Expanded, expand};
use fm_program::{Count, Op, Program, Span, Turn};
use std::alloc::Global;

// The programs of a text that reads as a score without fault.
fn expanded(alloc: Global, text: &str) -> Option<Expanded> {
    let score = match read(alloc, text) {
        Ok(score) => score,
        Err(_) => return None,
    };
    let outline = match outline_of(alloc, &score) {
        Ok(outline) => outline,
        Err(_) => return None,
    };
    match expand(alloc, &outline, 1) {
        Ok(expanded) => Some(expanded),
        Err(_) => None,
    }
}

// A quarter note of the first chord.
fn note_in(scope: u32) -> Op {
    Op::Note {
        chord: 0,
        span: Span::Ticks { ticks: 480 },
        channel: 0,
        gate: Turn::Steady { value: 90 },
        loud: Turn::Steady { value: 64 },
        scope,
    }
}

// Whether there is one program, of these operations, and so many scopes.
fn is_one(expanded: &Option<Expanded>, ops: &[Op], scopes: usize) -> bool {
    match expanded {
        Some(expanded) => {
            let programs = expanded.programs.as_slice();
            programs.len() == 1
                && programs[0].ops.as_slice() == ops
                && expanded.scopes.len() == scopes
        }
        None => false,
    }
}

/// A loop over a phrase of one note.
const LOOP_OF_A_PHRASE: &str = "formula 1; phrase p { note c4 1/4; } repeat 3 { do p; }";

#[test]
fn a_loop_names_the_places_round_it(rt: HostRuntime) {
    let ops = [
        Op::Loop {
            count: Count::Fixed { count: 3 },
            scope: 0,
            past: 3,
        },
        note_in(1),
        Op::Again { back: 1 },
    ];
    assert!(rt; is_one(&expanded(rt.alloc(), LOOP_OF_A_PHRASE), &ops, 2));
}

/// A fork of two branches, a note and a loop, and a note behind it.
const FORK_AND_NOTE: &str =
    "formula 1; par { branch { note c4 1/4; } branch { repeat 3 { note c4 1/4; } } } note d4 1/4;";

/// Behind which processes each process of the fork starts.
const WAITS: &[&[u32]] = &[&[], &[0], &[0], &[1, 2]];

// Whether there is a program for each of these, behind those processes.
fn wait_for(programs: &[Program], waits: &[&[u32]]) -> bool {
    if programs.len() != waits.len() {
        return false;
    }
    for (i, wait) in waits.iter().enumerate() {
        if programs[i].predecessors.as_slice() != *wait {
            return false;
        }
    }
    true
}

#[test]
fn a_fork_makes_processes_and_what_follows_waits(rt: HostRuntime) {
    match expanded(rt.alloc(), FORK_AND_NOTE) {
        Some(expanded) => {
            assert!(rt; wait_for(&expanded.programs, WAITS));
            assert_eq!(rt;
                expanded.programs.last().map_or(0, |last| last.ops.len()),
                1
            );
        }
        None => assert!(rt; false),
    }
}

/// A loop of two rounds over one of no rounds that forks, and a note.
const FORK_IN_NO_ROUNDS: &str =
    "formula 1; repeat 2 { repeat 0 { par { branch { } } } note c4 1/4; }";

#[test]
fn a_forking_loop_of_no_rounds_adds_nothing(rt: HostRuntime) {
    let found = expanded(rt.alloc(), FORK_IN_NO_ROUNDS);
    assert!(rt; is_one(&found, &[note_in(1), note_in(2)], 3));
}
