//! Where processes start.
ghost use Rattle.std.specs.Prelude.{◌≡◌};
ghost use Rattle.fm_player.specs.Course.{first_place, later_place};

use fm_nest::{MAX_LEVELS, Place};

/// Where the first process starts: at position 0, without a level.
pub fn first() -> Place
    ensures { result ≡ first_place }
{
    Place {
        depth: 0,
        origins: [0; MAX_LEVELS],
        position: 0,
    }
}

/// The later one of two places in the same levels. What follows several processes starts where
/// their ends meet.
pub fn meet(a: &Place, b: &Place) -> Place
    requires depth { a.now.depth ≡ b.now.depth }
    requires origins { a.now.origins ≡ b.now.origins }
    ensures { result ≡ later_place a.now b.now }
{
    if a.position < b.position { *b } else { *a }
}
