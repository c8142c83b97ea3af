//! The words of the command line: `IN OUT [--workers N] [--lead T] [--room K] [--generate N]
//! [--rounds] [--list] [--parts] [--locate T] [--process P] [--from A] [--to B] [--record]
//! [--audit]`.
//!
//! `read_options` reads the words after the program's name, and gives [`Options`] whose numbers lie
//! in their ranges; `names` gives the two file names alone. Both refuse the same words, which are
//! a definition over the list of words (`settings_of` of `specs/Settings`): clap's statement of a
//! simple command, and the ranges of the numbers. What options mean is left to the crates above.
#![tactic(auto)]

mod chosen;
mod command;
mod laws;
mod limits;
mod options;
mod words_fault;

pub use laws::{tables_obey_rules, words_obey_rules};
pub use limits::{
    DEFAULT_LEAD, DEFAULT_PROCESS, DEFAULT_ROOM, DEFAULT_WORKERS, MAX_GENERATE, MAX_LEAD,
    MAX_PROCESS, MAX_ROOM, MAX_TICK_ASKED, MAX_WORKERS, MIN_ROOM,
};
pub use options::{Options, names, read_options};
pub use words_fault::WordsFault;
