//! What is kept between two rounds, beside the processes.
use crate::watch::Watch;
use fm_buffer::Gather;

/// Which processes a round looks at, where the due events are gathered, and the lead.
#[derive(Drop)]
pub struct Stage {
    pub watch: Watch,
    pub gather: Gather,
    /// How far a process may run ahead of the least clock, in ticks.
    pub lead: u64,
}
