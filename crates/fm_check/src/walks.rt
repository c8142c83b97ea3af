//! The walks in their order.

ghost use Rattle.std.specs.Prelude.{◌≡◌, [], IfOk, OnOk, Some, Err};
ghost use Rattle.fm_lex.specs.declared.spot.Spot.{Spot};
ghost use Rattle.fm_grammar.specs.Score.{Score as Tree};
ghost use Rattle.fm_grammar.specs.View.{score_view};
ghost use Rattle.fm_meaning.specs.Resolve.{resolved};
ghost use Rattle.fm_meaning.specs.Bounds.{score_bounds};
ghost use Rattle.fm_meaning.specs.Faults.{score_faults, first_found};
ghost use Rattle.fm_check.specs.Made.{IsMadeOf};
ghost use Rattle.fm_check.specs.Reached.{totals_of};
ghost use Rattle.fm_rules.specs.Why.{fault_at};
ghost use Rattle.fm_rules.specs.declared.why.Why.{Why as Reason};

use crate::places::first_place_fault;
use crate::totals::bounds::Bounds;
use crate::totals::find_bounds;
use fm_grammar::Score;
use fm_outline::{Outline, outline_of};
use fm_rules::{CheckFault, refused};
use std::alloc::Global;

/// An accepted score with nothing left to look up, and its static totals.
#[derive(Drop)]
pub struct Checked {
    pub outline: Outline,
    pub bounds: Bounds,
}

/// The static totals of an outline without a fault of names and numbers, or its first fault: of
/// where statements stand, then of totals. The second walk is made only where the first found
/// nothing.
pub fn check_made(alloc: Global, outline: Outline) -> Result<Checked, CheckFault>
    requires { (s : Tree) × IsMadeOf outline s }
    ensures same { IfOk result (λ c. c.outline ≡ outline) }
    ensures bounds { (s : Tree) → IsMadeOf outline s
        → IfOk result (λ c. totals_of c.bounds ≡ score_bounds (resolved s)) }
    ensures faultless { (s : Tree) → IsMadeOf outline s → OnOk result (score_faults s ≡ []) }
    ensures refused { (s : Tree) → IsMadeOf outline s → (why : Reason) (spot : Spot) →
        result ≡ Err (CheckFault.Refused why spot) →
        first_found (score_faults s) ≡ Some (fault_at spot why) }
{
    if let Some(fault) = first_place_fault(&outline) {
        return Err(refused(fault));
    }
    let bounds = find_bounds(alloc, &outline)?;
    Ok(Checked { outline, bounds })
}

/// The static totals of a score whose tree is there, or its first fault: of names and numbers, then
/// of where statements stand, then of totals. The program does not call it: it checks the outline
/// that it makes while it reads a text.
pub fn check(alloc: Global, score: &Score) -> Result<Bounds, CheckFault>
    ensures bounds { IfOk result
        (λ b. totals_of b ≡ score_bounds (resolved (score_view score.now))) }
    ensures faultless { OnOk result (score_faults (score_view score.now) ≡ []) }
    ensures refused { (why : Reason) (spot : Spot) → result ≡ Err (CheckFault.Refused why spot) →
        first_found (score_faults (score_view score.now)) ≡ Some (fault_at spot why) }
{
    let outline = outline_of(alloc, score)?;
    match check_made(alloc, outline) {
        Ok(checked) => Ok(checked.bounds),
        Err(fault) => Err(fault),
    }
}
