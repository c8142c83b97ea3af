//! From a score to its plan.
//!
//! [`expand`] writes the programs of all processes from the outline of a score: operations are
//! appended to the program that grows, and the targets of jumps are filled in behind. Contracts see
//! the programs as `fm_expansion` says them.
#![tactic(auto)]

mod emitter;
mod expanding;
mod inside;
mod planning;

pub use expanding::{Expanded, expand};
pub use planning::{plan, plan_outline};
