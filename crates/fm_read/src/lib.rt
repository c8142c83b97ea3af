//! A reader of Standard MIDI Files with borrowed parts. `read` gives a `File`, or the first fault
//! of the bytes and its position; a `File` gives its chunks, and the entries of each track as an
//! iterator. `read` is Ok exactly where the bytes are a file, as `specs/Files` reads them from
//! left to right and `specs/FileForm` says in the format's own words. No call takes memory.
#![tactic(auto)]

mod chunk;
mod decoded;
mod entry;
mod fault;
mod file;
mod laws;
mod limits;
mod quantity;
mod track;

pub use chunk::{Chunk, Chunks};
pub use decoded::message_from;
pub use entry::Entry;
pub use fault::{ReadFault, ReadKind};
pub use file::{File, read};
pub use laws::{
    entries_are_few, file_faults_have_their_form, files_have_their_form, files_read_back,
    messages_come_back, track_faults_have_their_form, tracks_have_their_form,
};
pub use limits::MAX_FILE;
pub use track::Track;
