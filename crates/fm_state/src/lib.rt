//! The state of the scheduling core in vectors whose memory is taken once, and what is read off it.
//!
//! [`Rules`] are the lines, the room and the lead, which never change; [`Tables`] are processes,
//! seats, the floor and the events that are gathered and released. Contracts see both as `fm_core`
//! defines them. Which steps are allowed, and which is the next, is left to the crate above.
#![tactic(auto)]

mod desk;
mod dues;
mod holds;
mod rules;
mod sweeps;
mod tables;
mod visits;

pub use dues::{due_among, must_be_taken, waiting_events};
pub use rules::{Rules, time_at};
pub use sweeps::{greatest_end, sight_of, start_of};
pub use tables::Tables;
