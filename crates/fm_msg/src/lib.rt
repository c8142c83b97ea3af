//! Channel messages of MIDI 1.0 and the events that carry them.
//!
//! [`Msg`] is one of five channel messages, and `Msg::bytes` writes exactly the bytes of the
//! standard. [`Event`] is a message at a tick, with the process that made it and its number
//! there. [`Profile`] says how a file of such events is written. System messages and running
//! status are left out.
#![tactic(auto)]

mod event;
mod msg;
mod profile;
mod running;

pub use event::Event;
pub use msg::{BEND_VALUES, CHANNELS, DATA_VALUES, Msg};
pub use profile::{DIVISION, Profile};
pub use running::{LEAST_DIVISION, MOST_DIVISION};
