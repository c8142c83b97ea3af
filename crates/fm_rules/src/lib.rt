//! The rules of the language: what a version fixes, and why a score is refused.
//!
//! [`rules_of`] gives the rules of a score, [`ticks_of`] and [`ticks`] a length in ticks, and
//! [`warp_of`] a shape of the text as a deformation. [`Why`] is the reason of a refusal with its
//! number, [`Fault`] has its spot, and [`CheckFault`] is a fault or want of memory.
//!
//! The definitions stand with the meaning of a score. The walks of the checker say by `specs/Found`
//! that what they find is the first fault of those that the meaning lists. Which numbers a text may
//! have is left to the walk over names and numbers.
#![tactic(auto)]

mod fault;
mod length;
mod rules;
mod shape;
mod why;

pub use fault::{CheckFault, Fault, refused};
pub use length::{ticks, ticks_of};
pub use rules::{FIRST_VERSION, LAST_VERSION, Rules, rules_of};
pub use shape::warp_of;
pub use why::Why;
