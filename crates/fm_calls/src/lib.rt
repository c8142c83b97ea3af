//! The calls of a board that its conductor and its workers make.
//!
//! [`Calls`] has them, with the clauses of the board's own; `Board` is the first type that has
//! them. Whoever makes the same calls on a board and does more, as a recorder does, is played
//! on by every crew in the same way. [`Work`] is what a seat tells of a process that it gives back.
#![tactic(auto)]

mod calls;

pub use calls::{Calls, Work};
