//! What a process is given back with.

/// What a seat does to a process that it gives back.
#[derive(Clone, Copy)]
pub(crate) struct Handover {
    /// How many events of the outbox it takes.
    pub taken: u32,
    /// How many events it computed.
    pub computed: u32,
    /// The new clock, in ticks.
    pub clock: u64,
    /// Whether the process is at its end.
    pub ended: bool,
}
