//! How a file is written.
ghost use Rattle.std.specs.Prelude.{◌≡◌, false};

/// Ticks of a quarter note.
pub const DIVISION: u16 = 480;

/// How a file is written: whether running status is, and how many ticks a quarter note has.
#[derive(Clone, Copy, Debug, PartialEq, Eq)]
pub struct Profile {
    /// Whether a status byte that equals the one before it is left out.
    pub running: bool,
    /// Ticks of a quarter note.
    pub division: u16,
}

impl Profile {
    /// Each status byte is written, and a quarter note has 480 ticks.
    pub fn first() -> Profile
        ensures { result ≡ record { running = false; division = DIVISION } }
    {
        Profile {
            running: false,
            division: DIVISION,
        }
    }
}
