//! Where a tick lies in the levels of time that are open, one inside the other.
//!
//! `least` finds, in one deformation, the first position that lies at a tick or later, by halving.
//! `locate` does so level by level from the outermost, and its clause `meets` is the main theorem:
//! a position of the innermost level is played at the tick or later exactly where it is not below
//! the position found there. What a score opens is left to the crates above.
#![tactic(auto)]

mod laws;
mod levels;
mod position;
mod questions;

pub use laws::{positions_and_ticks_meet, ticks_are_located_once};
pub use levels::{Located, locate};
pub use position::least;
