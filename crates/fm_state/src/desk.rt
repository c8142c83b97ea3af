//! What a seat keeps.
use fm_core::{Floor, Sight};

/// The looks of a seat's sweep, with memory for all processes, the least pair of them, and the
/// floor that it last paced.
#[derive(Drop)]
pub struct Desk {
    pub sweep: Vec<Sight>,
    pub least: Option<(u64, u32)>,
    pub paced: Floor,
}
