//! The note-offs of a process that wait: a stack of a fixed size that gives them one at a time.
//!
//! [`Waiting`] holds the note-offs of notes that have begun and not ended. Before each sound of the
//! process `Waiting::next` gives those that come out first, one at a time: what is due, by its
//! ticks, and then, where a note needs their room, those that wait longest. Together they are what
//! `fm_line` says comes out there (`let_out`), and so the events of a process are made of its
//! sounds one at a time (`sounds_come_out_one_at_a_time`). What the sounds are, a run of a program,
//! is left to the crates above.
#![tactic(auto)]

mod all_out;
mod laws;
mod note_off;
mod waiting;

pub use all_out::let_out;
pub use laws::sounds_come_out_one_at_a_time;
pub use note_off::NoteOff;
pub use waiting::{MOST_WAITING, Waiting};
