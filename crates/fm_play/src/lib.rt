//! What every way to play a plan shares, whoever runs its processes and in whatever order, and
//! the plainest way to run them: one after the other, from their starts to their ends.
//!
//! [`begin_file`], [`write_all`] and [`finish_file`] write the file of a plan's piece, list by
//! list: after the last one's Ok the sink holds exactly that file (clause `ok`). [`met`] tells
//! where a process starts whose predecessors have ended. [`Played`] is the size of what was played.
//! [`lines`] gives the lines of a plan: its clause says that they are exactly those that
//! `fm_program` defines. [`start_of`] gives where one process starts, and keeps no event. Who
//! releases which events of processes that run beside one another, and when, is left to the crates
//! above.
#![tactic(auto)]

mod ends;
mod file;
mod played;
mod process;
mod start;
mod walk;

pub use file::{begin_file, finish_file, write_all};
pub use fm_line::Line;
pub use fm_strand::{Place, Plan};
pub use played::Played;
pub use start::met;
pub use walk::{lines, start_of};
