//! Positions of one level.

ghost use Rattle.std.specs.Prelude.{◌≡◌, ℕ, ◌+◌, ◌<◌, ◌≤◌, ◌↔◌, IfSome, IsNone};
ghost use Rattle.fm_warp.specs.Deformation.{at};
ghost use Rattle.fm_locate.specs.Locating.{IsLeastAt, IsNever};

use crate::questions::Questions;
use fm_tick::MAX_TICK;
use fm_warp::Warp;
use std::marker::Brand;
use std::sync::ledger::{Blank, Ledger};

/// The least position, at most `MAX_TICK`, that lies at the tick `t` or later. `None` exactly where
/// the last one lies before it.
pub fn least(warp: &Warp, t: u64) -> Option<u64>
    requires { t ≤ MAX_TICK }
    ensures there { IfSome result (IsLeastAt 0 warp.now t) }
    ensures none { IsNone result ↔ (at warp.now MAX_TICK < t) }
{
    counted::<Brand>(warp, t, Blank::new(1))
}

// `least`, with a count of the questions that is then let go.
fn counted<L: Ledger>(warp: &Warp, t: u64, blank: Blank) -> Option<u64>
    requires in_time { t ≤ MAX_TICK }
    requires name { blank.name ≡ L.name }
    requires parts { blank.parts ≡ L.parts }
    requires some { 0 < L.parts }
    ensures there { IfSome result (IsLeastAt 0 warp.now t) }
    ensures none { IsNone result ↔ (at warp.now MAX_TICK < t) }
{
    halve(warp, t, &mut Questions::<L>::new(blank))
}

// `least`, by halving: there are 2^40 + 1 positions, a number of 41 binary digits, so the
// deformation is asked at most 41 times.
fn halve<L: Ledger>(warp: &Warp, t: u64, questions: &mut Questions<L>) -> Option<u64>
    requires { t ≤ MAX_TICK }
    ensures there { IfSome result (IsLeastAt 0 warp.now t) }
    ensures none { IsNone result ↔ (at warp.now MAX_TICK < t) }
    ensures few { questions.new ≤ questions.old + 41 }
{
    let mut low = 0;
    let mut high = MAX_TICK + 1;
    while low < high {
        let middle = low + (high - low) / 2;
        if questions.ask(warp, middle) < t {
            low = middle + 1;
        } else {
            high = middle;
        }
    }
    if high > MAX_TICK { None } else { Some(high) }
}

/// `least` for a level that begins at `origin` in the level above, of which `t` is a tick.
pub(crate) fn least_inside(warp: &Warp, origin: u64, t: u64) -> Option<u64>
    requires { t ≤ MAX_TICK }
    ensures there { IfSome result (IsLeastAt origin warp.now t) }
    ensures never { IsNone result → IsNever origin warp.now t }
{
    least(warp, t.saturating_sub(origin))
}
