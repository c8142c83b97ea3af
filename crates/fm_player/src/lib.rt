//! One process of a plan as a value that runs in steps and gives its sounds in the order in which
//! the program makes them.
//!
//! [`Player::begin`] stands at the start of a process, and [`Player::step`] makes one step of its
//! program. The note-offs of a note follow its note-ons; [`Player::take_off`] hands them over one
//! by one, for those who let them wait, and [`Player::pitches`] tells how many pitches begin where
//! the player stands. What a player gives is a function of the plan, the process and the number of
//! steps made (law `players_give_their_lines`). A player is arrays alone and takes no memory. In
//! which order note-offs come out is left to the crates above.
#![tactic(auto)]

mod answers;
mod draws;
mod frame;
mod laws;
mod operations;
mod pending;
mod places;
mod player;
mod timeline;

pub use answers::Stepped;
pub use fm_nest::Place;
pub use fm_program::{Count, Draw, Op, Plan, Point, Program, Slot, Span, Stock, Turn};
pub use laws::{
    places_fit, plans_have_valid_lines, players_give_their_lines, processes_start_where_ends_meet,
};
pub use places::{first, meet};
pub use player::Player;
