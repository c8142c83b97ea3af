//! Where a tick of a file lies in the levels of time that are open where a process of a plan
//! starts, and the line that tells it.
//!
//! [`locate_in`] runs the processes in front to find where the process starts, and locates the tick
//! in the levels that are open there; its clause `told` says that the line of the position is the
//! one for the tick. [`Position::line`] writes that line. Nothing is played. Which processes a
//! score has is left to the crates above.
#![tactic(auto)]

mod laws;
mod levels;
mod position;

pub use fm_locate::Located;
pub use fm_program::Plan;
pub use laws::{starts_are_positions, ticks_are_told_once};
pub use levels::locate_in;
pub use position::{MAX_LINE, Position};
