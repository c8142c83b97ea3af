//! Standard MIDI Files of format 0 with one track, written event by event to any sink. A `Writer`
//! begins a file, takes its events in the order of their times and finishes it. `write_file` does
//! all of it: after an Ok the sink holds exactly `file` of the profile, the events and the end,
//! after a fault a front of that file with length 0, or the file with a part of its length. The
//! profile says the division, and whether running status is written. Sysex and further tracks are
//! left out.
#![tactic(auto)]

mod fault;
mod laws;
mod limits;
mod piece;
mod whole;
mod writer;

pub use fault::SinkFault;
pub use fm_msg::{Event, Msg, Profile};
pub use laws::{
    deltas_split, lengths_make_files, quantities_read_back, running_tracks_are_shorter, tracks_fit,
};
pub use limits::{BEFORE_TRACK, LENGTH_PLACE, MAX_QUANTITY, MAX_TIME, MAX_TRACK, START_LENGTH};
pub use piece::{FILLER, PIECE, fillers_before, piece_of};
pub use whole::write_file;
pub use writer::Writer;
