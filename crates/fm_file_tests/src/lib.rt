//! Tests of the crates that write and read files, from `fm_msg` and `fm_edge` to `fm_listing`, and of
//! `fm_words`, which reads the words of the command line.
//!
//! They use public calls alone, and stand above the crates that they test, so that the code of
//! those is not proved once more for them. There is nothing else here.
#![tactic(auto)]

#[cfg(test)]
mod edge;
#[cfg(test)]
mod excerpt;
#[cfg(test)]
mod listing;
#[cfg(test)]
mod memory;
#[cfg(test)]
mod msg;
#[cfg(test)]
mod parts;
#[cfg(test)]
mod pieces;
#[cfg(test)]
mod read;
#[cfg(test)]
mod same;
#[cfg(test)]
mod smf;
#[cfg(test)]
mod words;
