//! The scheduling core as data: which steps a state of processes, seats and released events
//! allows, what each step does, and what therefore holds of every state that can be reached.
//! `Step`, `Reason`, `Tag`, `Floor`, `Due`, `Cell` and `Sight` are the words, with their tests; the
//! state and the table of steps stand in `specs/`, and nothing here runs them. The main theorem is
//! the clause `step` of `steps_keep_sound`: for valid lines an allowed step keeps the state sound,
//! so what is released is a beginning of the piece. That a run never gets stuck is left to the
//! crate above.
#![tactic(auto)]

mod cell;
mod due;
mod floor;
mod laws;
mod limits;
mod reason;
mod sight;
mod step;
mod tag;

pub use cell::Cell;
pub use due::Due;
pub use floor::Floor;
pub use laws::{
    bounds_are_told_by_two_equations, gather_has_room, gives_are_allowed, least_is_the_least_pair,
    released_is_a_prefix, sound_states_are_orderly, steps_keep_sound,
};
pub use limits::{MAX_LEAD, MAX_SEATS};
pub use reason::Reason;
pub use sight::{Sight, lesser_pair};
pub use step::Step;
pub use tag::Tag;
