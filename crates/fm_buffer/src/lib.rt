//! Bounded lists of events between the processes and the file.
//!
//! An [`Outbox`] holds the events that one process has computed ahead, oldest first. A [`Gather`]
//! collects the events of all processes that are due and puts them into their order. The main
//! clause is that of `Outbox::take_through`: the longest due prefix moves, and nothing else.
//! Neither list takes memory after it is made. Who takes when is left to the crates above.
#![tactic(auto)]

mod gather;
mod merging;
mod outbox;
mod pairs;

pub use gather::Gather;
pub use outbox::{MAX_ROOM, Outbox};
