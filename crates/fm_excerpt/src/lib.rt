//! An excerpt of a Standard MIDI File, from a tick to a tick. `excerpt` writes a file of the same
//! profile that begins with the programs, controllers and bends that were set before, has the
//! events of the window without the note-offs of notes from before it, and ends what still sounds.
//! After an Ok the sink holds exactly `file` of `excerpt_events`; after a fault what the writer of
//! fm_smf leaves. No memory is taken. Files of other writers are left out.
#![tactic(auto)]

mod counts;
mod laws;
mod output;
mod state;
mod whole;
mod window;

pub use laws::{
    each_note_on_has_its_note_off, excerpts_are_files, excerpts_set_what_was_set,
    excerpts_that_meet, whole_range,
};
pub use whole::excerpt;
