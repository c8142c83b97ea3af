//! That plans are true to their scores, in laws: no code, but contracts of functions that do
//! nothing.
//!
//! The main law is `plans_play_the_score`: the plan of an accepted text has the lines that the text
//! means. `plans_fit` says that its parts fit. How a score becomes a plan stands in the crate
//! `fm_expansion`, and the code that makes the plan in the crates beside this one.
#![tactic(auto)]

mod laws;

pub use laws::{plans_fit, plans_play_the_score};
