//! Plays a plan in rounds: the processes run side by side for a while, and then all that can be
//! written is written.
//!
//! [`Rounds::open`] takes all memory. [`Rounds::play`] and [`Rounds::play_alone`] take none, and
//! after an Ok the sink holds exactly the file of the piece of the plan's lines (clause `ok`),
//! whatever the room, the lead and the number of threads are. Neither keeps a list of the piece.
//! What a plan means, and threads that run without rounds, are left to other crates.
#![tactic(auto)]

mod begin;
mod chain;
mod course;
mod lane;
mod least;
mod limits;
mod release;
mod rounds;
mod run;
mod stage;
mod turn;
mod watch;

pub use fm_play::Played;
pub use fm_strand::Plan;
pub use limits::MAX_WORKERS;
pub use rounds::Rounds;
