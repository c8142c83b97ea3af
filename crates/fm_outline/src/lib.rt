//! The outline of a score: its expressions, lists, chords and deformations in tables, and its
//! statements with the indices of what they name. A phrase is written down once and named by its
//! number.
//!
//! A contract sees an [`Outline`] through `specs/View`, where each phrase stands in the place of
//! its number.
#![tactic(auto)]

mod asking;
mod copying;
mod depths;
mod indices;
mod known;
mod lasting;
mod leaf;
mod needs;
mod number;
mod opened;
mod opening;
mod outline;
mod outliner;
mod own;
mod quality;
mod refusal;
mod shell;
mod sketch;
mod step;
mod tables;
mod tree;
mod value;
mod walk;

pub use asking::steps_ask;
pub use depths::{Depths, MAX_BLOCKS, MAX_FRAMES, MAX_WARPS, nothing_open, opened_by};
pub use lasting::Lasting;
pub use needs::{Needs, no_needs};
pub use opened::{Opened, Tested};
pub use outline::Outline;
pub use outliner::Outliner;
pub use own::{opens, own_needs};
pub use quality::Quality;
pub use step::{Instruction, Step};
pub use tables::Tables;
pub use tree::outline_of;
