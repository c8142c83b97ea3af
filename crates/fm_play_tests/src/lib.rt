//! Tests of the crates that place ticks in time and play one process: `fm_tick`, `fm_warp`,
//! `fm_nest`, `fm_locate`, `fm_buffer`, `fm_offs`, `fm_program`, `fm_player`, `fm_strand`,
//! `fm_play` and `fm_position`.
//!
//! They use public calls alone, and stand above the crates that they test, so that the code of
//! those is not proved once more for them. There is nothing else here.
#![tactic(auto)]

#[cfg(test)]
mod buffer;
#[cfg(test)]
mod locate;
#[cfg(test)]
mod nest;
#[cfg(test)]
mod note;
#[cfg(test)]
mod offs;
#[cfg(test)]
mod plans;
#[cfg(test)]
mod player;
#[cfg(test)]
mod position;
#[cfg(test)]
mod program;
#[cfg(test)]
mod same;
#[cfg(test)]
mod shapes;
#[cfg(test)]
mod strand;
#[cfg(test)]
mod tick;
#[cfg(test)]
mod walk;
#[cfg(test)]
mod warp;
