//! The ways in which a plan is played: by this thread alone, in rounds of threads, by a crew of
//! threads that run freely, or by a crew on record.
//!
//! [`play`] writes the file of the plan's piece in the way that options ask for, [`play_on_record`]
//! keeps the steps of a crew in memory. What they leave behind is defined in `specs/Ways`. In which
//! order threads run is left out.
#![tactic(auto)]

mod performance;
mod playing;
mod taped;
mod way;

pub use performance::Performance;
pub use playing::{play, play_alone};
pub use taped::{Setup, Tapes, play_on_record};
pub use way::{Way, way_of};
