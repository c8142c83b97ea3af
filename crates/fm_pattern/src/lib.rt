//! Repeated lists of durations, articulations and dynamics, and where a note ends.
//!
//! [`Rhythm`], [`Artic`] and [`Loud`] are cursors that go round a list, and [`Cursor`] is one for
//! a list of either kind: the k-th `next` is the entry at k modulo the list's length. [`end_of`] is
//! where a note ends. Which list is in force at a statement is left out.
#![tactic(auto)]

mod artic;
mod cursor;
mod laws;
mod loud;
mod note_end;
mod rhythm;
#[cfg(test)]
mod tests;

pub use artic::Artic;
pub use cursor::{Cursor, MAX_ENTRIES};
pub use laws::{articulations_bound_the_end, kth_next_is_the_entry_at_k};
pub use loud::Loud;
pub use note_end::{MAX_GATE, MAX_ONSET, end_of};
pub use rhythm::Rhythm;
