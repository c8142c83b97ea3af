//! The first fault among statements, by what they ask where so much is open.

ghost use Rattle.std.specs.Prelude.{◌≡◌, ◌++◌, map, flat_map, vec_items};
ghost use Rattle.fm_expansion.specs.Outline.{fork_in, passage_in, play_in};
ghost use Rattle.fm_meaning.specs.Places.{depth_faults, fork_faults, passage_faults, place_faults};
ghost use Rattle.fm_rules.specs.Found.{IsFirst};
ghost use Rattle.fm_outline.specs.Asking.{IsWithin, depths_view, own_faults, within};
ghost use Rattle.fm_outline.specs.Forking.{AreAsking, IsAsking};
ghost use Rattle.fm_outline.specs.View.{Look, arms_of_blocks, block_view, instruction_view};
ghost use Rattle.fm_outline.specs.View.{tables_view};

use crate::places::found::{first_missing, first_of};
use fm_outline::{Depths, Instruction, Step, Tables, no_needs, opened_by, opens, own_needs};
use fm_rules::Fault;

// The first fault of a block itself: what it asks, and then how deep those inside it stand.
fn look_round(tables: &Tables, step: &Step, depths: Depths) -> Option<Fault>
    ensures { (look : Look) →
        let p = play_in (tables_view tables.now) (instruction_view look step.now.what) in
        let d = depths_view depths in IsWithin d →
        IsFirst result (own_faults step.now.spot p d ++ depth_faults step.now.spot (within p d)) }
{
    let own = own_needs(tables, &step.what);
    let inner = opened_by(opens(&step.what), depths);
    let missing = first_missing(step.spot, own, depths);
    first_of(missing, first_missing(step.spot, no_needs(), inner))
}

// The first fault of a statement where so much is open. One without a block lacks just what it
// asks.
#[cycle(found)]
fn look_at(tables: &Tables, step: &Step, depths: Depths) -> Option<Fault>
    ensures { (look : Look) → IsAsking (tables_view tables.now) look step.now →
        IsWithin (depths_view depths) →
        IsFirst result (place_faults step.now.spot
        (play_in (tables_view tables.now) (instruction_view look step.now.what))
        (depths_view depths)) }
{
    let inner = opened_by(opens(&step.what), depths);
    match &step.what {
        Instruction::Note { .. } => first_missing(step.spot, step.needs(), depths),
        Instruction::Rest { .. } => first_missing(step.spot, step.needs(), depths),
        Instruction::Send { .. } => first_missing(step.spot, step.needs(), depths),
        Instruction::Set { .. } => first_missing(step.spot, step.needs(), depths),
        Instruction::Phrase { .. } => first_missing(step.spot, step.needs(), depths),
        Instruction::Choice { yes, no, .. } => {
            let first = look_through(tables, yes, inner);
            let body = first_of(first, look_through(tables, no, inner));
            first_of(look_round(tables, step, depths), body)
        }
        Instruction::Par { branches } => {
            let body = look_among(tables, branches, inner);
            first_of(look_round(tables, step, depths), body)
        }
        Instruction::Loop { body, .. } => {
            let body = look_through(tables, body, inner);
            first_of(look_round(tables, step, depths), body)
        }
        Instruction::Warp { body, .. } => {
            let body = look_through(tables, body, inner);
            first_of(look_round(tables, step, depths), body)
        }
        Instruction::Channel { body, .. } => {
            let body = look_through(tables, body, inner);
            first_of(look_round(tables, step, depths), body)
        }
        Instruction::Steady { body, .. } => {
            let body = look_through(tables, body, inner);
            first_of(look_round(tables, step, depths), body)
        }
        Instruction::Under { body, .. } => {
            let body = look_through(tables, body, inner);
            first_of(look_round(tables, step, depths), body)
        }
    }
}

// The first fault of the branches of a fork where so much is open.
#[cycle(found)]
fn look_among(tables: &Tables, branches: &[Vec<Step>], depths: Depths) -> Option<Fault>
    ensures { (look : Look) →
        AreAsking (tables_view tables.now) look (flat_map vec_items branches.now) →
        IsWithin (depths_view depths) →
        IsFirst result (fork_faults (fork_in (tables_view tables.now)
        (arms_of_blocks (map (λ b. block_view look b.items) branches.now))) (depths_view depths)) }
{
    let mut found = None;
    for branch in branches {
        found = first_of(found, look_through(tables, branch, depths));
    }
    found
}

/// The first fault of the statements of a block where so much is open.
#[cycle(found)]
pub(crate) fn look_through(tables: &Tables, steps: &[Step], depths: Depths) -> Option<Fault>
    ensures { (look : Look) → AreAsking (tables_view tables.now) look steps.now →
        IsWithin (depths_view depths) → IsFirst result (passage_faults
        (passage_in (tables_view tables.now) (block_view look steps.now)) (depths_view depths)) }
{
    let mut found = None;
    for step in steps {
        found = first_of(found, look_at(tables, step, depths));
    }
    found
}
