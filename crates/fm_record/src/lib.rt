//! The record of a performance as bytes: a score's text, and the steps of one run of the
//! scheduling core.
//!
//! A [`Tape`] is a record that is being made. [`header`] tells the parts of one, or the first field
//! that cannot stand, and [`read_step`] the step that its steps begin with. The main theorem is the
//! law `steps_are_told_by_their_bytes`: two lists of steps with equal bytes are equal. Whether the
//! steps are a run is left to the crate above.
#![tactic(auto)]

mod head;
mod laws;
mod limits;
mod read;
mod tape;
mod write;

pub use fm_core::Step;
pub use head::{BadHeader, Reel, header};
pub use laws::{heads_are_told_by_their_bytes, steps_are_told_by_their_bytes};
pub use limits::MAX_RECORD;
pub use read::read_step;
pub use tape::Tape;
