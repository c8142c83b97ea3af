//! Files with running status.
ghost use Rattle.std.specs.Prelude.{◌≡◌, ◌≤◌, true};

use crate::profile::Profile;

/// The fewest ticks that a quarter note of a file with running status has.
pub const LEAST_DIVISION: u16 = 24;

/// The most ticks that a quarter note of a file with running status has.
pub const MOST_DIVISION: u16 = 960;

impl Profile {
    /// Status bytes are left out where the one before says them, and a quarter note has `division`
    /// ticks, 24 to 960.
    pub fn second(division: u16) -> Profile
        requires { (LEAST_DIVISION ≤ division) × (division ≤ MOST_DIVISION) }
        ensures { result ≡ record { running = true; division = division } }
    {
        Profile {
            running: true,
            division,
        }
    }
}
