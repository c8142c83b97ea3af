//! Ticks, and what a stretch of time makes of a number of them.
//!
//! A tick is the unit of every position and length; the score says how many make a quarter note. A
//! `Stretch` says how many ticks of the level above one tick takes, in thousandths. `flat` maps
//! ticks under a steady stretch, and `sloped` under one that goes evenly from one value to another.
//! Each result is a whole part, named by its two bounds (clause `bounds`) and as a number (clause
//! `value`). How lengths add up to positions is left to the crate above.
#![tactic(auto)]

mod laws;
mod quotient;
mod stretch;
mod tick;

pub use laws::bounds_name_one_number;
pub use quotient::{flat, sloped};
pub use stretch::{MAX_STRETCH, Stretch};
pub use tick::MAX_TICK;
