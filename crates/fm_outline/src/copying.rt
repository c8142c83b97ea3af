//! Copies of what the statements of a lent tree say.

ghost use Rattle.std.specs.Prelude.{◌≡◌, IfOk, map};
ghost use Rattle.fm_grammar.specs.View.{amount_view, duration_view, expr_view};
ghost use Rattle.fm_grammar.specs.View.{opening_view, pitch_view};

use fm_grammar::{Amount, Duration, Opening, PartText, Pitch};
use fm_value::Expr;
use std::alloc::{AllocError, Global};

/// A copy of an expression.
pub(crate) fn copy_expr(expr: &Expr) -> Result<Expr, AllocError>
    ensures { IfOk result (λ e. expr_view e ≡ expr_view expr.now) }
{
    let nodes = expr.nodes.clone()?;
    let spots = expr.spots.clone()?;
    Ok(Expr { nodes, spots })
}

/// A copy of a value that a statement sends.
pub(crate) fn copy_amount(amount: &Amount) -> Result<Amount, AllocError>
    ensures { IfOk result (λ a. amount_view a ≡ amount_view amount.now) }
{
    match amount {
        Amount::Literal { value, spot } => Ok(Amount::Literal {
            value: *value,
            spot: *spot,
        }),
        Amount::Computed { value } => {
            let value = copy_expr(value)?;
            Ok(Amount::Computed { value })
        }
    }
}

// A copy of a pitch.
fn copy_pitch(pitch: &Pitch) -> Result<Pitch, AllocError>
    ensures { IfOk result (λ p. pitch_view p ≡ pitch_view pitch.now) }
{
    match pitch {
        Pitch::Named { key, spot } => Ok(Pitch::Named {
            key: *key,
            spot: *spot,
        }),
        Pitch::Key { amount, spot } => {
            let amount = copy_amount(amount)?;
            Ok(Pitch::Key {
                amount,
                spot: *spot,
            })
        }
    }
}

/// A copy of the pitches of a note.
pub(crate) fn copy_pitches(alloc: Global, pitches: &[Pitch]) -> Result<Vec<Pitch>, AllocError>
    ensures { IfOk result (λ ps. map pitch_view ps.items ≡ map pitch_view pitches.now) }
{
    let mut copies = Vec::new(alloc);
    for pitch in pitches {
        copies.push(copy_pitch(pitch)?)?;
    }
    Ok(copies)
}

/// A copy of a duration.
pub(crate) fn copy_duration(duration: &Duration) -> Result<Duration, AllocError>
    ensures { IfOk result (λ d. duration_view d ≡ duration_view duration.now) }
{
    match duration {
        Duration::Fixed { length } => Ok(Duration::Fixed { length: *length }),
        Duration::Computed { value, most } => {
            let value = copy_expr(value)?;
            Ok(Duration::Computed { value, most: *most })
        }
    }
}

/// A copy of the parts of a shape.
pub(crate) fn copy_parts(parts: &Vec<PartText>) -> Result<Vec<PartText>, AllocError>
    ensures { IfOk result (λ ps. ps.items ≡ parts.now.items) }
{
    parts.clone()
}

/// A copy of what stands before a block.
pub(crate) fn copy_opening<'s>(opening: &Opening<'s>) -> Result<Opening<'s>, AllocError>
    ensures { IfOk result (λ o. opening_view o ≡ opening_view opening.now) }
{
    match opening {
        Opening::Repeat { count } => Ok(Opening::Repeat { count: *count }),
        Opening::Again { count, most } => {
            let count = copy_expr(count)?;
            Ok(Opening::Again { count, most: *most })
        }
        Opening::Warp { name } => Ok(Opening::Warp { name: *name }),
        Opening::Channel { number } => Ok(Opening::Channel { number: *number }),
        Opening::Volume { number } => Ok(Opening::Volume { number: *number }),
        Opening::Gate { number } => Ok(Opening::Gate { number: *number }),
        Opening::Rhythm { list } => {
            let list = list.clone()?;
            Ok(Opening::Rhythm { list })
        }
        Opening::Artic { list } => {
            let list = list.clone()?;
            Ok(Opening::Artic { list })
        }
        Opening::Loud { list } => {
            let list = list.clone()?;
            Ok(Opening::Loud { list })
        }
    }
}
