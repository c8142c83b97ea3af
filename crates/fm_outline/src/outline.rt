//! The outline of a score.

use crate::step::Step;
use crate::tables::Tables;
use fm_rules::Rules;

/// A score with its tables. Each phrase names only phrases before it.
#[derive(Drop)]
pub struct Outline {
    pub tables: Tables,
    /// The phrases in the order of their definitions.
    pub phrases: Vec<Vec<Step>>,
    /// The statements that are played.
    pub block: Vec<Step>,
    /// The seed of the score's draws, 0 where the text has none.
    pub seed: u32,
    /// What the version of the score fixes.
    pub rules: Rules,
}
