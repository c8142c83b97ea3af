//! Tests of the ways of playing of the command, `fm_top`: threads, rounds and scripts; and of
//! `fm_effort`, how many threads a score is worth.
//!
//! They use public calls alone, and stand above the crate that they test, so that its code is not
//! proved once more for them. There is nothing else here.
#![tactic(auto)]

#[cfg(test)]
mod actors;
#[cfg(test)]
mod effort;
#[cfg(test)]
mod meets;
#[cfg(test)]
mod runs;
#[cfg(test)]
mod scripted;
#[cfg(test)]
mod ways;
