//! What is to be released next.
ghost use Rattle.std.specs.Prelude.{◌≡◌};
ghost use Rattle.fm_core.specs.Taking as words;

use fm_msg::Event;

/// The events that are to be released before the floor moves again.
#[derive(Clone, Copy, Debug, PartialEq, Eq, Drop)]
pub enum Due {
    /// None.
    Nothing,
    /// Those whose time in ticks and process are at most this pair.
    Pair { time: u64, process: u32 },
    /// All that are left.
    Everything,
}

impl Due {
    /// Whether something is due.
    pub fn is_due(self) -> bool
        ensures { result ≡ words.is_due self }
    {
        match self {
            Due::Nothing => false,
            _ => true,
        }
    }

    /// Whether an event is due.
    pub fn covers(self, event: &Event) -> bool
        ensures { result ≡ words.covers self event.now }
    {
        match self {
            Due::Nothing => false,
            Due::Pair { time, process } => {
                event.time() < time || event.time() == time && event.process() <= process
            }
            Due::Everything => true,
        }
    }
}
