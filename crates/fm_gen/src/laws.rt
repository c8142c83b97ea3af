//! A law of the large scores, for whoever reads the definition. Its body is empty.
ghost use Rattle.std.specs.Prelude.{◌≡◌, ◌≤◌, ℕ};
ghost use Rattle.fm_gen.specs.LargeScore.{large_score};

use crate::score::MAX_NUMBER;

/// Each number has a score of its own.
#[tactic(auto, using(crate::proofs::SeedLemmas::number_of_score))]
pub fn each_number_has_its_score()
    ensures { (m n : ℕ) → m ≤ MAX_NUMBER → n ≤ MAX_NUMBER → large_score m ≡ large_score n → m ≡ n }
{}
