//! How many workers are worth their cost for a plan.
//!
//! A write costs more in a program of several threads, and each event that a worker computes goes
//! from one processor to another. So workers save time only where computing is a fair part of the
//! work. [`useful_workers`] makes a rough estimate, which is defined in `specs/Effort`: it returns
//! what the definition says (`value`). That the figures fit a machine is not claimed, and no play
//! depends on them: every number of workers writes the same file.
#![tactic(auto)]

mod enclosing;
mod load;
mod useful;

pub use useful::useful_workers;
