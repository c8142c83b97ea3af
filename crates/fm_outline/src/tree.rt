//! The outline of a score whose tree is there: an outliner is told copies of what it says.

ghost use Rattle.std.specs.Prelude.{◌≡◌, [], map, vec_items, IfOk, OnOk, Some};
ghost use Rattle.fm_grammar.specs.Making.{AreForked, AreMade};
ghost use Rattle.fm_grammar.specs.Score as text;
ghost use Rattle.fm_grammar.specs.View.{amount_view, branches_of, duration_view, entry_view};
ghost use Rattle.fm_grammar.specs.View.{expr_view, item_view, items_view};
ghost use Rattle.fm_grammar.specs.View.{pitch_view, placed, score_view};
ghost use Rattle.fm_meaning.specs.Faults.{first_found};
ghost use Rattle.fm_meaning.specs.Ranges.{second_walk};
ghost use Rattle.fm_meaning.specs.Resolve.{resolved};
ghost use Rattle.fm_rules.specs.Why.{fault_at};
ghost use Rattle.fm_outline.specs.OfScore.{IsOutlineOf, passage_of_outline};
ghost use Rattle.fm_outline.specs.Outlining.{IsEntered, IsOutlined};
ghost use Rattle.fm_outline.specs.Phrases.{PhrasesStand};
ghost use Rattle.fm_outline.specs.Refusal.{Refuses};

use crate::copying::{
    copy_amount, copy_duration, copy_expr, copy_opening, copy_parts, copy_pitches,
};
use crate::outline::Outline;
use crate::outliner::Outliner;
use crate::step::Step;
use crate::tables::append;
use fm_grammar::{Amount, Duration, Entry, Item, Maker, Number, Pitch, Score, What};
use fm_lex::Spot;
use fm_rules::CheckFault;
use fm_value::Expr;
use std::alloc::{AllocError, Global};

// A note.
fn tell_note(
    alloc: Global,
    outliner: &mut Outliner,
    spot: Spot,
    pitches: &[Pitch],
    duration: &Duration,
) -> Result<Step, AllocError>
    ensures { IfOk result (λ s. IsOutlined outliner.old (placed spot
        (text.note (map pitch_view pitches.now) (duration_view duration.now))) s outliner.new) }
{
    let pitches = copy_pitches(alloc, pitches)?;
    let duration = copy_duration(duration)?;
    Ok(outliner.note(alloc, spot, pitches, duration))
}

// A note of the rhythm's duration.
fn tell_play(
    alloc: Global,
    outliner: &mut Outliner,
    spot: Spot,
    pitches: &[Pitch],
) -> Result<Step, AllocError>
    ensures { IfOk result (λ s. IsOutlined outliner.old
        (placed spot (text.play (map pitch_view pitches.now))) s outliner.new) }
{
    let pitches = copy_pitches(alloc, pitches)?;
    Ok(outliner.play(alloc, spot, pitches))
}

// A rest.
fn tell_rest(
    alloc: Global,
    outliner: &mut Outliner,
    spot: Spot,
    duration: &Duration,
) -> Result<Step, AllocError>
    ensures { IfOk result (λ s. IsOutlined outliner.old
        (placed spot (text.rest (duration_view duration.now))) s outliner.new) }
{
    let duration = copy_duration(duration)?;
    Ok(outliner.rest(alloc, spot, duration))
}

// A control change.
fn tell_control(
    alloc: Global,
    outliner: &mut Outliner,
    spot: Spot,
    controller: Number,
    amount: &Amount,
) -> Result<Step, AllocError>
    ensures { IfOk result (λ s. IsOutlined outliner.old
        (placed spot (text.control controller (amount_view amount.now))) s outliner.new) }
{
    let amount = copy_amount(amount)?;
    Ok(outliner.control(alloc, spot, controller, amount))
}

// A program change.
fn tell_program(
    alloc: Global,
    outliner: &mut Outliner,
    spot: Spot,
    amount: &Amount,
) -> Result<Step, AllocError>
    ensures { IfOk result (λ s. IsOutlined outliner.old
        (placed spot (text.program (amount_view amount.now))) s outliner.new) }
{
    let amount = copy_amount(amount)?;
    Ok(outliner.program(alloc, spot, amount))
}

// A pitch bend.
fn tell_bend(
    alloc: Global,
    outliner: &mut Outliner,
    spot: Spot,
    amount: &Amount,
) -> Result<Step, AllocError>
    ensures { IfOk result (λ s. IsOutlined outliner.old
        (placed spot (text.bend (amount_view amount.now))) s outliner.new) }
{
    let amount = copy_amount(amount)?;
    Ok(outliner.bend(alloc, spot, amount))
}

// A register that takes a value.
fn tell_set(
    alloc: Global,
    outliner: &mut Outliner,
    spot: Spot,
    register: u8,
    value: &Expr,
) -> Result<Step, AllocError>
    ensures { IfOk result (λ s. IsOutlined outliner.old
        (placed spot (text.set register (expr_view value.now))) s outliner.new) }
{
    let value = copy_expr(value)?;
    Ok(outliner.set(alloc, spot, register, value))
}

// A statement.
#[cycle(tree)]
fn tell_item<'s>(
    alloc: Global,
    outliner: &mut Outliner<'s>,
    item: &Item<'s>,
) -> Result<Step, AllocError>
    ensures { IfOk result (λ s. IsOutlined outliner.old (item_view item.now) s outliner.new) }
{
    let spot = item.spot;
    match &item.what {
        What::Note { pitches, duration } => tell_note(alloc, outliner, spot, pitches, duration),
        What::Play { pitches } => tell_play(alloc, outliner, spot, pitches),
        What::Rest { duration } => tell_rest(alloc, outliner, spot, duration),
        What::Skip => Ok(outliner.skip(spot)),
        What::Control { controller, amount } => {
            tell_control(alloc, outliner, spot, *controller, amount)
        }
        What::Program { amount } => tell_program(alloc, outliner, spot, amount),
        What::Bend { amount } => tell_bend(alloc, outliner, spot, amount),
        What::Set { register, value } => tell_set(alloc, outliner, spot, *register, value),
        What::If { test, yes, no } => {
            let test = copy_expr(test)?;
            let tested = outliner.test(alloc, spot, test);
            let yes = tell_items(alloc, outliner, yes)?;
            let no = tell_items(alloc, outliner, no)?;
            Ok(outliner.choose(tested, yes, no))
        }
        What::Block { opening, body } => {
            let opening = copy_opening(opening)?;
            let opened = outliner.open(alloc, spot, opening);
            let body = tell_items(alloc, outliner, body)?;
            Ok(outliner.enclose(opened, body))
        }
        What::Do { name } => Ok(outliner.call(spot, *name)),
        What::Par { branches } => {
            let branches = tell_branches(alloc, outliner, branches)?;
            Ok(outliner.fork(spot, branches))
        }
    }
}

// Statements in turn.
#[cycle(tree)]
fn tell_items<'s>(
    alloc: Global,
    outliner: &mut Outliner<'s>,
    items: &[Item<'s>],
) -> Result<Vec<Step>, AllocError>
    ensures { IfOk result (λ steps.
        AreMade IsOutlined outliner.old (items_view items.now) steps.items outliner.new) }
{
    let mut steps = Vec::with_capacity(alloc, items.len())?;
    for item in items {
        let step = tell_item(alloc, outliner, item)?;
        append(&mut steps, step)?;
    }
    Ok(steps)
}

// The branches of a fork.
#[cycle(tree)]
fn tell_branches<'s>(
    alloc: Global,
    outliner: &mut Outliner<'s>,
    branches: &[Vec<Item<'s>>],
) -> Result<Vec<Vec<Step>>, AllocError>
    ensures { IfOk result (λ bs. AreForked IsOutlined outliner.old
        (branches_of (map (λ b. items_view b.items) branches.now)) (map vec_items bs.items)
        outliner.new) }
{
    let mut outlined = Vec::with_capacity(alloc, branches.len())?;
    for branch in branches {
        let block = tell_items(alloc, outliner, branch)?;
        append(&mut outlined, block)?;
    }
    Ok(outlined)
}

// An entry.
fn tell_entry<'s>(
    alloc: Global,
    outliner: &mut Outliner<'s>,
    entry: &Entry<'s>,
) -> Result<(), AllocError>
    ensures { OnOk result (IsEntered outliner.old (entry_view entry.now) outliner.new) }
{
    match entry {
        Entry::Shape { name, parts } => {
            let parts = copy_parts(parts)?;
            outliner.shape(alloc, *name, parts);
        }
        Entry::Phrase { name, body } => {
            outliner.name(name);
            let body = tell_items(alloc, outliner, body)?;
            outliner.phrase(*name, body);
        }
        Entry::Play { item } => {
            let step = tell_item(alloc, outliner, item)?;
            outliner.enter(step);
        }
    }
    Ok(())
}

/// The outline of a score whose tree is there, or its first fault of names and numbers. The program
/// does not call it: it outlines a text while it reads it.
pub fn outline_of(alloc: Global, score: &Score) -> Result<Outline, CheckFault>
    ensures outline { IfOk result (λ o. IsOutlineOf o (score_view score.now)) }
    ensures passage { IfOk result (λ o.
        passage_of_outline o ≡ (resolved (score_view score.now)).passage) }
    ensures phrases { IfOk result PhrasesStand }
    ensures faultless { OnOk result (second_walk (score_view score.now) ≡ []) }
    ensures refused { Refuses result (λ spot why.
        first_found (second_walk (score_view score.now)) ≡ Some (fault_at spot why)) }
{
    let mut outliner = Outliner::open(alloc, score.head);
    for entry in &score.entries {
        tell_entry(alloc, &mut outliner, entry)?;
    }
    outliner.close()
}
