//! The law of the large scores. The function does nothing but to name the laws that its own rests
//! on: the law is its contract.
ghost use Rattle.std.specs.Prelude.{◌≤◌, ℕ};
ghost use Rattle.fm_gen.specs.declared.score.TheConstants.{MAX_NUMBER};
ghost use Rattle.fm_large.specs.LargePerformance.{IsPerformed};

use fm_line::piece_has_all;
use fm_promise::{notes_end_in_their_turn, totals_are_kept};

/// The large score of every number is accepted, has 18 processes and 32 events for each note of a
/// voice, and ends at the tick that its stretch and its number of notes determine.
pub fn large_scores_are_performed()
    ensures { (number : ℕ) → number ≤ MAX_NUMBER → IsPerformed number }
{
    totals_are_kept();
    notes_end_in_their_turn();
    piece_has_all();
}
