//! What steps answer.
use fm_msg::Event;

/// What a step did.
#[derive(Clone, Copy, PartialEq, Eq)]
pub enum Stepped {
    /// It gave no event.
    Silent,
    /// It gave this event.
    Event(Event),
    /// The program is at its end, and nothing changed.
    Ended,
}
