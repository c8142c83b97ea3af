//! How a thread passes the time while it finds nothing to do.
//!
//! An [`Idle`] counts the turns of a thread that found nothing. It tries again at once for a while,
//! then lets other threads run, then rests. Threads rest by a [`Bell`], which wakes all of them at
//! the end of a run. How long a wait may be after how many turns is the clause `wait` of
//! `Idle::after`; that a thread wakes is not said.
#![tactic(auto)]

mod bell;
mod idle;

pub use bell::{Bell, Rung};
pub use idle::Idle;
