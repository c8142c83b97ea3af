//! The scheduling core as a machine that makes one step at a time, on one thread.
//!
//! A [`Hall`] keeps processes, seats, the floor and the released events in the tables of
//! `fm_state`, whose memory it takes at `open`. `Hall::step` takes exactly the steps that `fm_core`
//! allows and answers its first reason for any other. Its clause `safe` says what then holds of
//! every hall: what is released is a beginning of the piece. `Hall::next_step` never gets stuck.
//! Real threads are left to the crates above.
#![tactic(auto)]

mod checks;
mod choices;
mod effects;
mod hall;
mod handover;
mod refusals;
mod searches;
mod taken;

pub use checks::are_valid;
pub use fm_core::{Floor, MAX_LEAD, MAX_SEATS, Reason, Step};
pub use fm_line::Line;
pub use hall::Hall;
pub use taken::Taken;
