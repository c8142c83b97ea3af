//! From a text to its plan, or to its fault.
//!
//! [`judge`] reads, checks and plans a text. Each entry is outlined and dropped before the next one
//! is read.
#![tactic(auto)]

mod judging;
mod outlined;

pub use judging::judge;
