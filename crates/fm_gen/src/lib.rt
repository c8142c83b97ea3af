//! A score of any size from one number, and the line that sums up its performance.
//!
//! `generate` gives the text of sixteen voices under one or two time deformations; its number
//! seeds the draws of pitches and sets how long the voices are. `Summary::line` is what is said of
//! a performance: its processes, events, end and bytes. The main clause is that of `generate`: the
//! text is the stated one, byte by byte. That the text reads as a score is left to the crates that
//! read it.
#![tactic(auto)]

mod laws;
mod score;
mod summary;

pub use laws::each_number_has_its_score;
pub use score::{MAX_NUMBER, MAX_SCORE, generate};
pub use summary::{MAX_SUMMARY, Summary};
