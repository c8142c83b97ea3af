//! The listing of a Standard MIDI File that was read: a line for its header, and one for each entry
//! of each track, with its tick and its bytes. `list` puts exactly `listing` of what was read;
//! after a fault some front of that. Each chunk is gone over once, and no memory is taken.
#![tactic(auto)]

mod laws;
mod line;
mod whole;

pub use laws::written_files_are_listed;
pub use whole::list;
