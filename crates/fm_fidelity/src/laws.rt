//! Laws of the plans of scores. These functions do nothing: the law of each is its contract.
ghost use Rattle.std.specs.Prelude.{◌≡◌, ℕ, ◌≤◌, List};
ghost use Rattle.fm_grammar.specs.Score.{Score as Tree};
ghost use Rattle.fm_meaning.specs.Resolve.{resolved};
ghost use Rattle.fm_meaning.specs.Lines.{played_lines};
ghost use Rattle.fm_meaning.specs.Verdict.{Means};
ghost use Rattle.fm_meaning.specs.Bounds.{score_bounds};
ghost use Rattle.fm_program.specs.Process.{plan_lines, plan_played};
ghost use Rattle.fm_program.specs.Fit.{PartsFit, all_steps};
ghost use Rattle.fm_expansion.specs.Numbering.{score_plan};

use fm_promise::{
    accepted_lines_are_valid, accepted_lists_have_entries, accepted_statements_keep_limits,
    every_level_is_in_time, totals_are_kept,
};

/// The plan of an accepted text has the lines that the text means: each process the same events,
/// the same predecessors and the same end.
pub fn plans_play_the_score()
    ensures { (text : List ℕ) (s : Tree) → Means text s →
        plan_lines (score_plan s) ≡ played_lines (resolved s) }
{
    accepted_lines_are_valid();
    accepted_statements_keep_limits();
    accepted_lists_have_entries();
    every_level_is_in_time();
    totals_are_kept();
}

/// The parts of that plan fit: each number names what is there, each program comes to its end
/// within its limits and starts where its predecessors end. All processes together take no more
/// steps than the static totals say.
pub fn plans_fit()
    ensures fit { (text : List ℕ) (s : Tree) → Means text s → PartsFit (score_plan s) }
    ensures steps { (text : List ℕ) (s : Tree) → Means text s →
        all_steps (plan_played (score_plan s)) ≤ (score_bounds (resolved s)).steps }
{
    accepted_lines_are_valid();
    accepted_statements_keep_limits();
    accepted_lists_have_entries();
    every_level_is_in_time();
    totals_are_kept();
}
