//! Where a process starts.
ghost use Rattle.std.specs.Prelude.{◌≡◌, IfSome};
ghost use Rattle.fm_play.specs.Places.{HasLevelsOf, met_place};

use fm_strand::{Place, meet};

/// The later one of a place, where there is one, and another in the same levels. A process starts
/// where the ends of its predecessors meet.
pub fn met(latest: Option<Place>, end: Place) -> Place
    requires { IfSome latest (λ place. HasLevelsOf place end) }
    ensures { result ≡ met_place latest end }
{
    match latest {
        Some(place) => meet(&place, &end),
        None => end,
    }
}
