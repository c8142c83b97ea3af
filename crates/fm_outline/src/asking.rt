//! What statements ask of the blocks that are open round them, and whether they fork, found once,
//! while they are made.
//!
//! Each statement keeps it, so that nobody goes into a block to find it out.

ghost use Rattle.std.specs.Prelude.{◌≡◌, true, flat_map, map, vec_items};
ghost use Rattle.fm_expansion.specs.Outline.{Tables as PlainTables, fork_in};
ghost use Rattle.fm_meaning.specs.Places.{fork_faults};
ghost use Rattle.fm_outline.specs.Asking.{BlockAsks, InsideAsks, StepAsks, TellsFaults};
ghost use Rattle.fm_outline.specs.Asking.{stands_alone as is_alone};
ghost use Rattle.fm_outline.specs.Needs.{asks as rhythm_asked};
ghost use Rattle.fm_outline.specs.declared.lasting.Lasting.TheVariants as lasts;
ghost use Rattle.fm_outline.specs.declared.step.Instruction.TheVariants as does;
ghost use Rattle.fm_outline.specs.Forking.{AreAsking, CanMark, FindsSame, IsKnownOf};
ghost use Rattle.fm_outline.specs.Forking.{MarksStep};
ghost use Rattle.fm_outline.specs.View.{Look, arms_of_blocks, block_view, instruction_view};
ghost use Rattle.fm_outline.specs.View.{phrase_at, tables_view};

use crate::leaf::skip;
use crate::needs::{Needs, asks, both, no_needs, outside};
use crate::own::{opens, own_needs};
use crate::step::{Instruction, Step};
use crate::tables::Tables;
use fm_lex::Spot;

/// What the statements of a block ask, as they say.
pub fn steps_ask(steps: &[Step]) -> Needs
    ensures { (t : PlainTables) (look : Look) → AreAsking t look steps.now →
        BlockAsks t (block_view look steps.now) result }
{
    let mut needs = no_needs();
    for step in steps {
        needs = both(needs, step.needs);
    }
    needs
}

// What a phrase asks, where it is known of phrases.
fn phrase_asks(number: Option<u32>, phrases: &[Needs]) -> Needs
    ensures { (t : PlainTables) (look : Look) → IsKnownOf phrases.now t look number →
        BlockAsks t (phrase_at look number) result }
{
    match number {
        Some(n) => match phrases.get(n as usize) {
            Some(needs) => *needs,
            None => no_needs(),
        },
        None => no_needs(),
    }
}

// What the branches of a fork ask, as their statements say.
fn branches_ask(branches: &[Vec<Step>]) -> Needs
    ensures { (t : PlainTables) (look : Look) →
        AreAsking t look (flat_map vec_items branches.now) → TellsFaults (fork_faults (fork_in t
        (arms_of_blocks (map (λ b. block_view look b.items) branches.now)))) result }
{
    let mut needs = no_needs();
    for branch in branches {
        needs = both(needs, steps_ask(branch));
    }
    needs
}

// What those inside a statement ask, as they say.
#[inline(always)]
fn inside_asks(what: &Instruction, phrases: &[Needs]) -> Needs
    ensures { (t : PlainTables) (look : Look) → CanMark phrases.now t look what.now →
        InsideAsks t (instruction_view look what.now) result }
{
    match what {
        Instruction::Note { .. } => no_needs(),
        Instruction::Rest { .. } => no_needs(),
        Instruction::Send { .. } => no_needs(),
        Instruction::Set { .. } => no_needs(),
        Instruction::Choice { yes, no, .. } => both(steps_ask(yes), steps_ask(no)),
        Instruction::Loop { body, .. } => steps_ask(body),
        Instruction::Phrase { number } => phrase_asks(*number, phrases),
        Instruction::Par { branches } => branches_ask(branches),
        Instruction::Warp { body, .. } => steps_ask(body),
        Instruction::Channel { body, .. } => steps_ask(body),
        Instruction::Steady { body, .. } => steps_ask(body),
        Instruction::Under { body, .. } => steps_ask(body),
    }
}

// Whether a statement has none inside, and names no phrase.
#[inline(always)]
fn stands_alone(what: &Instruction) -> bool
    ensures { (look : Look) → result ≡ is_alone (instruction_view look what.now) }
{
    match what {
        Instruction::Note { .. } => true,
        Instruction::Rest { .. } => true,
        Instruction::Send { .. } => true,
        Instruction::Set { .. } => true,
        Instruction::Choice { .. } => false,
        Instruction::Loop { .. } => false,
        Instruction::Phrase { .. } => false,
        Instruction::Par { .. } => false,
        Instruction::Warp { .. } => false,
        Instruction::Channel { .. } => false,
        Instruction::Steady { .. } => false,
        Instruction::Under { .. } => false,
    }
}

// What a statement asks, with those inside it.
#[inline(always)]
fn needs_of(what: &Instruction, phrases: &[Needs], tables: &Tables) -> Needs
    ensures { (t : PlainTables) (look : Look) →
        FindsSame (tables_view tables.now) t (instruction_view look what.now) →
        CanMark phrases.now t look what.now →
        StepAsks t (instruction_view look what.now) result }
{
    let own = own_needs(tables, what);
    if stands_alone(what) {
        return own;
    }
    both(own, outside(opens(what), inside_asks(what, phrases)))
}

/// A rest of the rhythm's duration at its spot.
pub(crate) fn beat_at(spot: Spot) -> Step
    ensures { result
        ≡ record { spot = spot; what = does.Rest lasts.Beat; needs = rhythm_asked true 0 } }
{
    let what = skip();
    let needs = asks(true, 0);
    Step { spot, what, needs }
}

/// A statement at its spot, which says what it asks, and whether it forks. None is made elsewhere.
#[inline(always)]
pub(crate) fn step_at(spot: Spot, what: Instruction, phrases: &[Needs], tables: &Tables) -> Step
    ensures spot { result.spot ≡ spot }
    ensures what { result.what ≡ what }
    ensures asking { MarksStep (tables_view tables.now) phrases.now what result }
{
    let needs = needs_of(&what, phrases, tables);
    Step { spot, what, needs }
}
