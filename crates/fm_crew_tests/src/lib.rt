//! Tests of the crates that play a whole plan: `fm_round`, `fm_board` and `fm_crew`.
//!
//! They use public calls alone, and stand above the crates that they test, so that the code of
//! those is not proved once more for them. There is nothing else here.
#![tactic(auto)]

#[cfg(test)]
mod board;
#[cfg(test)]
mod crew;
#[cfg(test)]
mod round;
#[cfg(test)]
mod same;
#[cfg(test)]
mod voices;
