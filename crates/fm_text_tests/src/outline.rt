//! Outlines of small scores.

use crate::same::same;
use crate::texts::read;
use fm_grammar::{Maker, Number, Opening};
use fm_lex::Spot;
use fm_outline::{Instruction, Lasting, Outline, Outliner, Step, outline_of};
use fm_rules::{CheckFault, Why};
use std::alloc::Global;

// The outline of a text that reads as a score without fault.
fn outlined(alloc: Global, text: &str) -> Option<Outline> {
    match read(alloc, text) {
        Ok(score) => match outline_of(alloc, &score) {
            Ok(outline) => Some(outline),
            Err(_) => None,
        },
        Err(_) => None,
    }
}

// The seed, and how many expressions, phrases and statements there are.
fn numbers(outline: &Outline) -> (u32, usize, usize, usize) {
    let exprs = outline.tables.exprs.len();
    (
        outline.seed,
        exprs,
        outline.phrases.len(),
        outline.block.len(),
    )
}

// Where the first statement stands and how long it lasts, if it is a rest.
fn first_rest(outline: &Outline) -> Option<(Spot, Lasting)> {
    match outline.block.first() {
        Some(step) => match &step.what {
            Instruction::Rest { lasting } => Some((step.spot, *lasting)),
            _ => None,
        },
        None => None,
    }
}

#[test]
fn outlines_a_rest(rt: HostRuntime) {
    match outlined(rt.alloc(), "formula 1; seed 7; skip;") {
        Some(outline) => {
            same(&rt, &numbers(&outline), &(7, 0, 0, 1));
            let spot = Spot {
                line: 1,
                column: 20,
            };
            assert!(rt; first_rest(&outline) == Some((spot, Lasting::Beat)));
        }
        None => assert!(rt; false),
    }
}

/// A loop over a rest and a phrase that forks.
const FORK_IN_A_PHRASE: &str =
    "formula 1; phrase p { par { branch { } } } repeat 0 { skip; do p; }";

#[test]
fn a_fork_in_a_phrase_is_found_in_a_loop(rt: HostRuntime) {
    match outlined(rt.alloc(), FORK_IN_A_PHRASE) {
        Some(outline) => {
            let forks = outline.block.first().map(|step| step.forks());
            same(&rt, &forks, &Some(true));
        }
        None => assert!(rt; false),
    }
}

// A spot in the second line.
fn at(column: u32) -> Spot {
    Spot { line: 2, column }
}

// A loop over a rest of the rhythm's duration, as a reader tells it.
fn looped<'s>(outliner: &mut Outliner<'s>, alloc: Global, rounds: u32) -> Step {
    let count = Number {
        value: rounds,
        spot: at(8),
    };
    let opened = outliner.open(alloc, at(1), Opening::Repeat { count });
    let inside = outliner.skip(at(20));
    let mut body = Vec::new(alloc);
    let _ = body.push(inside);
    outliner.enclose(opened, body)
}

// The outline of two loops, as a reader tells them.
fn told(alloc: Global, first: u32, second: u32) -> Result<Outline, CheckFault> {
    match read(alloc, "formula 1; seed 7;") {
        Ok(score) => {
            let mut outliner = Outliner::open(alloc, score.head);
            let step = looped(&mut outliner, alloc, first);
            outliner.enter(step);
            let step = looped(&mut outliner, alloc, second);
            outliner.enter(step);
            outliner.close()
        }
        Err(_) => Err(CheckFault::Memory),
    }
}

#[test]
fn outlines_what_is_told(rt: HostRuntime) {
    match told(rt.alloc(), 2, 3) {
        Ok(outline) => {
            same(&rt, &numbers(&outline), &(7, 0, 0, 2));
            let inside = match outline.block.first() {
                Some(step) => match &step.what {
                    Instruction::Loop { body, .. } => body.len(),
                    _ => 0,
                },
                None => 0,
            };
            same(&rt, &inside, &1);
        }
        Err(_) => assert!(rt; false),
    }
}

#[test]
fn the_first_fault_that_is_told_is_kept(rt: HostRuntime) {
    match told(rt.alloc(), 1_000_001, 2_000_000) {
        Ok(_) => assert!(rt; false),
        Err(fault) => {
            let (why, spot) = (Why::OutOfRange, at(8));
            assert!(rt; fault == CheckFault::Refused { why, spot });
        }
    }
}
