//! Tests of the crates that take the steps of the core and keep them, `fm_hall`, `fm_record` and
//! `fm_audit`, and of the texts of `fm_tell`.
//!
//! They use public calls alone, and stand above the crates that they test, so that the code of
//! those is not proved once more for them. There is nothing else here.
#![tactic(auto)]

#[cfg(test)]
mod audit;
#[cfg(test)]
mod hall;
#[cfg(test)]
mod record;
#[cfg(test)]
mod same;
#[cfg(test)]
mod texts;
