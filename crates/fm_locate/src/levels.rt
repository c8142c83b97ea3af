//! Positions in levels that are open one inside the other.

ghost use Rattle.std.specs.Prelude.{◌≡◌, ℕ, ◌+◌, ◌<◌, ◌≤◌, ◌↔◌, List, length, All};
ghost use Rattle.fm_warp.specs.declared.side.Side.TheVariants.{Onset};
ghost use Rattle.fm_nest.specs.Nesting.{FitsLevels, composed, framed};
ghost use Rattle.fm_locate.specs.Locating.{AreLocated, IsNeverAt, innermost_position};

use crate::position::least_inside;
use fm_nest::{MAX_LEVELS, Place};
use fm_tick::MAX_TICK;
use fm_warp::Warp;

/// Where a tick lies in levels.
#[derive(Clone, Copy, Debug, PartialEq, Eq)]
pub enum Located {
    /// The position in each level, the outermost first, and 0 above the depth.
    There { positions: [u64; MAX_LEVELS] },
    /// The first level, counted from 1 from the outermost, that has no such position.
    Never { level: u32 },
}

/// Where the tick `t` of the outermost level lies in the levels of a place, each of the deformation
/// that its id names: in each the least position that the level above has at the position found
/// there, or later. Where the place stands in the innermost level has no effect.
pub fn locate(ids: &[u32], warps: &[Warp], place: &Place, t: u64) -> Located
    requires depth { length ids.now ≡ place.now.depth }
    requires room { place.now.depth ≤ MAX_LEVELS }
    requires limited { All (λ origin. origin ≤ MAX_TICK) place.now.origins }
    requires named { All (λ id. id < length warps.now) ids.now }
    requires in_time { t ≤ MAX_TICK }
    ensures there { (positions : List ℕ) → result ≡ Located.There positions →
        AreLocated warps.now (framed ids.now place.now.origins) t positions }
    ensures never { (level : ℕ) → result ≡ Located.Never level → (k : ℕ) × (level ≡ k + 1) ×
        IsNeverAt warps.now (framed ids.now place.now.origins) t k }

    // A position of the innermost level is played at the tick or later exactly where it is not
    // below the position found there.
    ensures meets { (positions : List ℕ) → result ≡ Located.There positions → (x : ℕ) →
        FitsLevels Onset warps.now (framed ids.now place.now.origins) x →
        (t ≤ composed Onset warps.now (framed ids.now place.now.origins) x)
        ↔ (innermost_position (framed ids.now place.now.origins) t positions ≤ x) }
{
    let mut positions = [0; MAX_LEVELS];
    let mut sought = t;
    for (index, id) in ids.iter().enumerate() {
        match least_inside(&warps[*id as usize], place.origins[index], sought) {
            Some(position) => {
                positions[index] = position;
                sought = position;
            }
            None => {
                return Located::Never {
                    level: index as u32 + 1,
                };
            }
        }
    }
    Located::There { positions }
}
