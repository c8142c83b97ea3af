//! A Standard MIDI File of format 0 split into one of format 1: the tempo in a track of its own,
//! and a track for each channel that has an event. `split` puts exactly `format1` of the file's
//! division, its messages and its end; after a fault some front of that. Each length is counted
//! before its track is written, so nothing is patched, and no memory is taken. Files of other
//! writers are left out.
#![tactic(auto)]

mod event;
mod laws;
mod parts;
mod tally;
mod whole;

pub use laws::{each_event_has_its_track, parts_are_read_back};
pub use whole::split;
