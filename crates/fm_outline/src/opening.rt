//! What statements say before their blocks.

ghost use Rattle.std.specs.Prelude.{◌≡◌, [], length, None, IfOk, OnOk, IfErr};
ghost use Rattle.fm_grammar.specs.Opening.{filled};
ghost use Rattle.fm_grammar.specs.Score.{Body};
ghost use Rattle.fm_grammar.specs.View.{expr_view, opening_view};
ghost use Rattle.fm_meaning.specs.Faults.{first_found};
ghost use Rattle.fm_meaning.specs.Ranges.{expr_faults};
ghost use Rattle.fm_program.specs.Parts.{expr_nodes};
ghost use Rattle.fm_ranges.specs.Own.{opening_faults};
ghost use Rattle.fm_expansion.specs.Numbering.{Catalogue, expr_added};
ghost use Rattle.fm_outline.specs.Knows.{Knows};
ghost use Rattle.fm_outline.specs.Refusal.{Told};
ghost use Rattle.fm_outline.specs.Shell.{Opens};
ghost use Rattle.fm_outline.specs.View.{Look, tables_view};

use crate::known::Known;
use crate::number::{add_lengths, add_numbers};
use crate::quality::Quality;
use crate::refusal::answered;
use crate::shell::{Shell, deformed, drawn, gate, repeated, under, volume};
use crate::tables::Tables;
use fm_grammar::Opening;
use fm_ranges::{check_expr, check_opening};
use fm_rules::CheckFault;
use fm_value::Expr;
use std::alloc::Global;

// What stands before a block, whose own numbers have no fault.
fn shell_of(
    alloc: Global,
    opening: Opening,
    known: &Known,
    tables: &mut Tables,
) -> Result<Shell, CheckFault>
    requires { None ≡ first_found (opening_faults known.now.whole (opening_view opening)) }
    ensures { (k : Catalogue) (look : Look) → Knows known.now look k → (b : Body) →
        Opens k (filled (opening_view opening.entry) b) b (tables_view tables.old)
        (tables_view tables.new) result }
{
    match opening {
        Opening::Repeat { count } => repeated(count),
        Opening::Again { count, most } => drawn(tables.add_expr(alloc, count), most),
        Opening::Warp { name } => deformed(known.shape(&name)),
        Opening::Channel { number } => {
            let number = number.value as u8;
            Ok(Shell::Channel { number })
        }
        Opening::Volume { number } => volume(number),
        Opening::Gate { number } => gate(number),
        Opening::Rhythm { list } => {
            under(
                Quality::Duration,
                add_lengths(alloc, known.whole, &list, tables),
            )
        }
        Opening::Artic { list } => {
            under(Quality::Articulation, add_numbers(alloc, &list, tables))
        }
        Opening::Loud { list } => under(Quality::Loudness, add_numbers(alloc, &list, tables)),
    }
}

/// What stands before a block, whatever the block is, or its first fault of names and numbers.
pub(crate) fn outline_opening(
    alloc: Global,
    opening: Opening,
    known: &Known,
    tables: &mut Tables,
) -> Result<Shell, CheckFault>
    ensures { (k : Catalogue) (look : Look) → Knows known.now look k → (b : Body) →
        Opens k (filled (opening_view opening.entry) b) b (tables_view tables.old)
        (tables_view tables.new) result }
{
    answered(check_opening(known.whole, &opening))?;
    shell_of(alloc, opening, known, tables)
}

/// The expression of a choice, by its index, or its first fault.
pub(crate) fn outline_test(
    alloc: Global,
    test: Expr,
    tables: &mut Tables,
) -> Result<u32, CheckFault>
    ensures at { IfOk result (λ p. p ≡ length (tables_view tables.old).exprs) }
    ensures added { OnOk result (tables_view tables.new
        ≡ expr_added (expr_nodes test) (tables_view tables.old)) }
    ensures clean { OnOk result (expr_faults (expr_view test) ≡ []) }
    ensures told { IfErr result (Told (expr_faults (expr_view test))) }
{
    answered(check_expr(&test))?;
    Ok(tables.add_expr(alloc, test)?)
}
