//! Plans.
ghost use Rattle.std.specs.Prelude.{◌≡◌, ◌≤◌, ℕ, List, IfOk};
ghost use Rattle.fm_grammar.specs.Score.{Score as Tree};
ghost use Rattle.fm_grammar.specs.View.{score_view};
ghost use Rattle.fm_meaning.specs.Bounds.{score_bounds};
ghost use Rattle.fm_meaning.specs.Lines.{played_lines};
ghost use Rattle.fm_meaning.specs.Resolve.{resolved};
ghost use Rattle.fm_meaning.specs.Verdict.{Means};
ghost use Rattle.fm_program.specs.Fit.{PartsFit, all_steps};
ghost use Rattle.fm_program.specs.Process.{plan_lines, plan_played};
ghost use Rattle.fm_expansion.specs.Numbering.{score_plan};
ghost use Rattle.fm_outline.specs.OfScore.{IsOutlineOf};
ghost use Rattle.fm_outline.specs.Phrases.{ForksMarked};
ghost use Rattle.fm_check.specs.Reached.{totals_of};
ghost use Rattle.fm_plan.specs.Seen.{outline_plan};

use crate::expanding::{Expanded, expand};
use fm_check::Bounds;
use fm_fidelity::{plans_fit, plans_play_the_score};
use fm_grammar::Score;
use fm_outline::{Outline, Tables, outline_of};
use fm_program::{Plan, Stock};
use std::alloc::{AllocError, Global};

// The plan of an outline whose parts fit. There is room for so many processes from the start.
fn put_together(alloc: Global, outline: Outline, processes: u32) -> Result<Plan, AllocError>
    requires fit { PartsFit (outline_plan outline) }
    requires marked { ForksMarked outline }
    ensures { IfOk result (λ p. p ≡ outline_plan outline) }
{
    let Expanded { programs, scopes } = expand(alloc, &outline, processes)?;
    let Outline {
        tables,
        seed,
        rules,
        ..
    } = outline;
    let Tables {
        exprs,
        lists,
        chords,
        warps,
        ..
    } = tables;
    let stock = Stock {
        exprs,
        lists,
        chords,
        scopes,
        warps,
    };
    Ok(Plan::of(stock, programs, u64::from(seed), rules.profile))
}

/// The plan of a score that is accepted, from its outline and its static totals: its processes have
/// the lines that the score means, and take no more steps together than the totals say.
pub fn plan_outline(alloc: Global, outline: Outline, bounds: &Bounds) -> Result<Plan, AllocError>
    requires { (text : List ℕ) × (s : Tree) × Means text s × IsOutlineOf outline s
        × (totals_of bounds.now ≡ score_bounds (resolved s)) }
    ensures parts { (s : Tree) → IsOutlineOf outline s → IfOk result (λ p. p ≡ score_plan s) }
    ensures lines { (text : List ℕ) (s : Tree) → Means text s → IsOutlineOf outline s →
        IfOk result (λ p. plan_lines p ≡ played_lines (resolved s)) }
    ensures steps { (text : List ℕ) (s : Tree) → Means text s → IsOutlineOf outline s →
        IfOk result (λ p. all_steps (plan_played p) ≤ (score_bounds (resolved s)).steps) }
{
    plans_fit();
    plans_play_the_score();
    put_together(alloc, outline, bounds.processes)
}

/// The same of a score whose tree is there. The program does not call it: it plans the outline that
/// it makes while it reads a text.
pub fn plan(alloc: Global, score: &Score, bounds: &Bounds) -> Result<Plan, AllocError>
    requires accepted { (text : List ℕ) × Means text (score_view score.now) }
    requires bounds { totals_of bounds.now ≡ score_bounds (resolved (score_view score.now)) }
    ensures parts { IfOk result (λ p. p ≡ score_plan (score_view score.now)) }
    ensures lines { IfOk result (λ p.
        plan_lines p ≡ played_lines (resolved (score_view score.now))) }
    ensures steps { IfOk result (λ p.
        all_steps (plan_played p) ≤ (score_bounds (resolved (score_view score.now))).steps) }
{
    // A score that is accepted has no fault.
    match outline_of(alloc, score) {
        Ok(outline) => plan_outline(alloc, outline, bounds),
        Err(_) => Err(AllocError),
    }
}
