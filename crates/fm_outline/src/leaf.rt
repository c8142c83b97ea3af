//! Statements that have no statements inside.

ghost use Rattle.std.specs.Prelude.{◌≡◌, [], map, IfOk};
ghost use Rattle.fm_grammar.specs.Score as tree;
ghost use Rattle.fm_grammar.specs.View.{amount_view, duration_view, expr_view, name_view, pitch_view};
ghost use Rattle.fm_expansion.specs.Outline.{Tables as PlainTables};
ghost use Rattle.fm_expansion.specs.Numbering.{Catalogue};
ghost use Rattle.fm_outline.specs.Answered.{Answers};
ghost use Rattle.fm_outline.specs.Forking.{CanMark, Surrounds};
ghost use Rattle.fm_outline.specs.Knows.{Knows, KnowsNeeds};
ghost use Rattle.fm_outline.specs.View.{Look, tables_view};
ghost use Rattle.fm_outline.specs.declared.lasting.Lasting.TheVariants as lasts;
ghost use Rattle.fm_outline.specs.declared.step.Instruction.TheVariants as does;

use crate::known::Known;
use crate::lasting::Lasting;
use crate::refusal::{answered, called};
use crate::step::Instruction;
use crate::tables::Tables;
use crate::value::{outline_draw, outline_duration, outline_keys};
use fm_grammar::{Amount, Duration, Name, Number, Pitch};
use fm_program::Point;
use fm_ranges::{
    check_bend, check_control, check_duration, check_expr, check_note, check_pitches, check_program,
};
use fm_rules::CheckFault;
use fm_value::Expr;
use std::alloc::Global;

/// A note of a duration of its own.
pub(crate) fn note(
    alloc: Global,
    whole: u32,
    pitches: Vec<Pitch>,
    duration: Duration,
    tables: &mut Tables,
) -> Result<Instruction, CheckFault>
    ensures view { (k : Catalogue) (look : Look) → k.whole ≡ whole → Answers k look
        (tree.note (map pitch_view pitches.items) (duration_view duration)) (tables_view tables.old) (tables_view tables.new) result }
    ensures leaf { IfOk result (Surrounds []) }
{
    answered(check_note(whole, &pitches, &duration))?;
    let keys = outline_keys(alloc, pitches, tables)?;
    let lasting = outline_duration(alloc, whole, duration, tables)?;
    let chord = tables.add_chord(keys)?;
    Ok(Instruction::Note { chord, lasting })
}

/// A note of the innermost rhythm.
pub(crate) fn play(
    alloc: Global,
    pitches: Vec<Pitch>,
    tables: &mut Tables,
) -> Result<Instruction, CheckFault>
    ensures view { (k : Catalogue) (look : Look) → Answers k look
        (tree.play (map pitch_view pitches.items)) (tables_view tables.old) (tables_view tables.new) result }
    ensures leaf { IfOk result (Surrounds []) }
{
    answered(check_pitches(&pitches))?;
    let keys = outline_keys(alloc, pitches, tables)?;
    let chord = tables.add_chord(keys)?;
    Ok(Instruction::Note {
        chord,
        lasting: Lasting::Beat,
    })
}

/// A rest.
pub(crate) fn rest(
    alloc: Global,
    whole: u32,
    duration: Duration,
    tables: &mut Tables,
) -> Result<Instruction, CheckFault>
    ensures view { (k : Catalogue) (look : Look) → k.whole ≡ whole → Answers k look
        (tree.rest (duration_view duration)) (tables_view tables.old) (tables_view tables.new) result }
    ensures leaf { IfOk result (Surrounds []) }
{
    answered(check_duration(whole, &duration))?;
    let lasting = outline_duration(alloc, whole, duration, tables)?;
    Ok(Instruction::Rest { lasting })
}

/// A rest of the rhythm's duration.
pub(crate) fn skip() -> Instruction
    ensures { result ≡ does.Rest lasts.Beat }
{
    Instruction::Rest {
        lasting: Lasting::Beat,
    }
}

/// A message of a controller.
pub(crate) fn control(
    alloc: Global,
    controller: Number,
    amount: Amount,
    tables: &mut Tables,
) -> Result<Instruction, CheckFault>
    ensures view { (k : Catalogue) (look : Look) → Answers k look
        (tree.control controller (amount_view amount)) (tables_view tables.old) (tables_view tables.new) result }
    ensures leaf { IfOk result (Surrounds []) }
{
    answered(check_control(controller, &amount))?;
    let draw = outline_draw(alloc, amount, tables)?;
    let point = Point::Control {
        controller: controller.value as u8,
    };
    Ok(Instruction::Send { point, draw })
}

/// A program change.
pub(crate) fn program(
    alloc: Global,
    amount: Amount,
    tables: &mut Tables,
) -> Result<Instruction, CheckFault>
    ensures view { (k : Catalogue) (look : Look) → Answers k look
        (tree.program (amount_view amount)) (tables_view tables.old) (tables_view tables.new) result }
    ensures leaf { IfOk result (Surrounds []) }
{
    answered(check_program(&amount))?;
    let draw = outline_draw(alloc, amount, tables)?;
    let point = Point::Program;
    Ok(Instruction::Send { point, draw })
}

/// A pitch bend.
pub(crate) fn bend(
    alloc: Global,
    amount: Amount,
    tables: &mut Tables,
) -> Result<Instruction, CheckFault>
    ensures view { (k : Catalogue) (look : Look) → Answers k look
        (tree.bend (amount_view amount)) (tables_view tables.old) (tables_view tables.new) result }
    ensures leaf { IfOk result (Surrounds []) }
{
    answered(check_bend(&amount))?;
    let draw = outline_draw(alloc, amount, tables)?;
    let point = Point::Bend;
    Ok(Instruction::Send { point, draw })
}

/// A register that takes a value.
pub(crate) fn set(
    alloc: Global,
    register: u8,
    value: Expr,
    tables: &mut Tables,
) -> Result<Instruction, CheckFault>
    ensures view { (k : Catalogue) (look : Look) → Answers k look
        (tree.set register (expr_view value)) (tables_view tables.old) (tables_view tables.new) result }
    ensures leaf { IfOk result (Surrounds []) }
{
    answered(check_expr(&value))?;
    let expr = tables.add_expr(alloc, value)?;
    Ok(Instruction::Set { register, expr })
}

/// The call of a phrase.
pub(crate) fn call(name: &Name, known: &Known) -> Result<Instruction, CheckFault>
    ensures view { (k : Catalogue) (look : Look) (t : PlainTables) → Knows known.now look k →
        Answers k look (tree.call (name_view name.now)) t t result }
    ensures asking { (look : Look) (v : PlainTables) → KnowsNeeds known.now v look →
        IfOk result (CanMark known.now.needs.items v look) }
{
    called(known.phrase(name))
}
