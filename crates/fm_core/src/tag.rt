//! Where a process is.
ghost use Rattle.std.specs.Prelude.{◌≡◌};
ghost use Rattle.fm_core.specs.Tags as words;

/// Where a process is: not started, to be had, held by a seat, or at its end.
#[derive(Clone, Copy, Debug, PartialEq, Eq, Drop)]
pub enum Tag {
    /// Not started: some predecessor may still be live.
    Unborn,
    /// To be had, with room in its outbox.
    Home,
    /// To be had, with as many events in its outbox as the room.
    Full,
    /// Held by a seat.
    Out,
    /// At its end, with events in its outbox.
    Ended,
    /// At its end, and held by seat 0, which takes its events.
    EndedOut,
    /// At its end, with an empty outbox.
    Drained,
}

impl Tag {
    /// Whether the process was not started.
    pub fn is_unborn(self) -> bool
        ensures { result ≡ words.is_unborn self }
    {
        match self {
            Tag::Unborn => true,
            _ => false,
        }
    }

    /// Whether it is to be had, with room in its outbox.
    pub fn is_home(self) -> bool
        ensures { result ≡ words.is_home self }
    {
        match self {
            Tag::Home => true,
            _ => false,
        }
    }

    /// Whether it is held, and was not ended before.
    pub fn is_out(self) -> bool
        ensures { result ≡ words.is_out self }
    {
        match self {
            Tag::Out => true,
            _ => false,
        }
    }

    /// Whether it is at home and not ended.
    pub fn is_at_hand(self) -> bool
        ensures { result ≡ words.is_at_hand self }
    {
        match self {
            Tag::Home | Tag::Full => true,
            _ => false,
        }
    }

    /// Whether it is at its end.
    pub fn is_ended(self) -> bool
        ensures { result ≡ words.is_ended self }
    {
        match self {
            Tag::Ended | Tag::EndedOut | Tag::Drained => true,
            _ => false,
        }
    }

    /// Whether some seat holds it.
    pub fn is_held(self) -> bool
        ensures { result ≡ words.is_held self }
    {
        match self {
            Tag::Out | Tag::EndedOut => true,
            _ => false,
        }
    }

    /// Whether this seat may claim it.
    pub fn is_claimable(self, seat: u32) -> bool
        ensures { result ≡ words.is_claimable seat self }
    {
        match self {
            Tag::Home => true,
            Tag::Full | Tag::Ended => seat == 0,
            _ => false,
        }
    }

    /// Whether it is at its end with an empty outbox.
    pub fn is_drained(self) -> bool
        ensures { result ≡ words.is_drained self }
    {
        match self {
            Tag::Drained => true,
            _ => false,
        }
    }

    /// Whether nothing is to be taken of it.
    pub fn has_nothing(self) -> bool
        ensures { result ≡ words.has_nothing self }
    {
        match self {
            Tag::Unborn | Tag::Drained => true,
            _ => false,
        }
    }

    /// The tag of a process that was claimed.
    pub fn claimed(self) -> Tag
        ensures { result ≡ words.claimed_tag self }
    {
        match self {
            Tag::Ended => Tag::EndedOut,
            _ => Tag::Out,
        }
    }

    /// The tag of a process that comes home, ended or not, with so many events in its outbox.
    pub fn given(room: u32, ended: bool, waiting: u32) -> Tag
        ensures { result ≡ words.given_tag room ended waiting }
    {
        if ended {
            if waiting == 0 {
                Tag::Drained
            } else {
                Tag::Ended
            }
        } else {
            if waiting == room {
                Tag::Full
            } else {
                Tag::Home
            }
        }
    }
}
