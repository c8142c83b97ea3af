//! Which scores are accepted: `check` gives the static totals of a score, or its first fault, in
//! the order of the walks over names and numbers, over places, and over totals.
//!
//! The main clauses are `bounds`, `faultless` and `refused` of `check`. The walk over names and
//! numbers makes the outline and has a crate of its own. The other two go over the outline and are
//! a module each, `places` and `totals`. How a text is read, and its faults before that, are left
//! to the parser.
#![tactic(auto)]

mod places;
mod totals;
mod walks;

pub use fm_rules::{CheckFault, Why};
pub use totals::bounds::Bounds;
pub use walks::{Checked, check, check_made};
