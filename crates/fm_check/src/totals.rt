//! What a score asks for at most, and where that is too much.
//!
//! The totals are those of the definition, up to a ceiling above each limit
//! (`specs/Saturation.antt`). What a phrase adds is found once, and kept by its number.

ghost use Rattle.std.specs.Prelude.{◌≡◌, ℕ, [], map, vec_items, OnOk, IfOk, Some, Err};
ghost use Rattle.fm_lex.specs.declared.spot.Spot.{Spot};
ghost use Rattle.fm_grammar.specs.Score.{Score as Tree};
ghost use Rattle.fm_meaning.specs.Rules.{score_rules};
ghost use Rattle.fm_meaning.specs.Resolved.{Play, Passage, done, item};
ghost use Rattle.fm_meaning.specs.Resolve.{resolved};
ghost use Rattle.fm_meaning.specs.Bounds.{score_bounds, fourth_walk};
ghost use Rattle.fm_meaning.specs.Faults.{first_found};
ghost use Rattle.fm_outline.specs.Forking.{PhrasesMarked};
ghost use Rattle.fm_outline.specs.View.{tables_view, look_in, phrases_view};
ghost use Rattle.fm_rules.specs.Why.{fault_at};
ghost use Rattle.fm_rules.specs.declared.why.Why.{Why};
ghost use Rattle.fm_check.specs.Saturation.{capped};
ghost use Rattle.fm_check.specs.Weight.{KnowsWeights, weight_of};
ghost use Rattle.fm_check.specs.Reached.{IsSoundOutline, Reached, totals_of};

pub(crate) mod bounds;
mod excess;
mod sums;
mod weigh;

use crate::totals::bounds::Bounds;
use crate::totals::excess::first_excess;
use crate::totals::sums::Sums;
use crate::totals::weigh::{weigh_step, weigh_steps};
use fm_lex::Spot;
use fm_outline::{Outline, Step, Tables};
use fm_rules::CheckFault;
use std::alloc::{AllocError, Global};

// What each phrase adds at most, found once.
fn weigh_phrases(
    alloc: Global,
    tables: &Tables,
    longest: u64,
    phrases: &[Vec<Step>],
) -> Result<Vec<Sums>, AllocError>
    requires { PhrasesMarked (map vec_items phrases.now) }
    ensures { IfOk result (λ sums. (n : ℕ) → longest ≡ capped n →
        KnowsWeights (tables_view tables.now) sums.items n
        (look_in (phrases_view (map vec_items phrases.now)))) }
{
    let mut sums = Vec::with_capacity(alloc, phrases.len())?;
    for phrase in phrases {
        let own = weigh_steps(tables, sums.as_slice(), longest, phrase);
        sums.push(own)?;
    }
    Ok(sums)
}

// Adds what the statement at a spot adds at most.
fn add(most_processes: u32, before: Sums, weight: Sums, spot: Spot) -> Result<Sums, CheckFault>
    ensures ok { IfOk result (λ sums. (s : Tree) (play : Play) (rest : Passage) →
        most_processes ≡ (score_rules s).most_processes →
        weight ≡ weight_of (resolved s).longest play →
        Reached s before (item spot play rest) → Reached s sums rest) }
    ensures refused { (why : Why) (at : Spot) → result ≡ Err (CheckFault.Refused why at) →
        (s : Tree) (play : Play) (rest : Passage) →
        most_processes ≡ (score_rules s).most_processes →
        weight ≡ weight_of (resolved s).longest play →
        Reached s before (item spot play rest) →
        first_found (fourth_walk (score_rules s) (resolved s)) ≡ Some (fault_at at why) }
{
    let sums = before.plus(weight);
    match first_excess(most_processes, sums.whole()) {
        None => Ok(sums),
        Some(why) => Err(CheckFault::Refused { why, spot }),
    }
}

// The totals where no statement is left.
fn finish(before: Sums) -> Bounds
    requires { (s : Tree) × Reached s before done }
    ensures { (s : Tree) → Reached s before done → totals_of result ≡ score_bounds (resolved s) }
{
    let whole = before.whole();
    Bounds {
        processes: whole.processes as u32,
        operations: whole.operations as u32,
        length: whole.length,
        events: whole.events as u32,
        steps: whole.steps as u32,
    }
}

// The greatest entry of all rhythms, in ticks up to the ceiling.
#[tactic(auto, unfolding(crate::specs::Saturation::capped))]
fn longest_entry(tables: &Tables) -> u64
    ensures { result ≡ capped (tables_view tables.now).longest }
{
    u64::from(tables.longest)
}

/// The static totals of the score that has an outline, or the first statement with which one of
/// them passes its limit.
pub(crate) fn find_bounds(alloc: Global, outline: &Outline) -> Result<Bounds, CheckFault>
    requires { (s : Tree) × IsSoundOutline outline.now s }
    ensures bounds { (s : Tree) → IsSoundOutline outline.now s →
        IfOk result (λ b. totals_of b ≡ score_bounds (resolved s)) }
    ensures faultless { (s : Tree) → IsSoundOutline outline.now s →
        OnOk result (fourth_walk (score_rules s) (resolved s) ≡ []) }
    ensures refused { (s : Tree) → IsSoundOutline outline.now s →
        (why : Why) (spot : Spot) → result ≡ Err (CheckFault.Refused why spot) →
        first_found (fourth_walk (score_rules s) (resolved s)) ≡ Some (fault_at spot why) }
{
    let longest = longest_entry(&outline.tables);
    let phrases = weigh_phrases(alloc, &outline.tables, longest, &outline.phrases)?;
    let mut before = Sums::NONE;
    for step in &outline.block {
        let weight = weigh_step(&outline.tables, &phrases, longest, step);
        before = add(outline.rules.most_processes, before, weight, step.spot)?;
    }
    Ok(finish(before))
}
