//! What ticks become under a steady stretch and under a slope, rounded down to whole ticks.

ghost use Rattle.std.specs.Prelude.{◌≡◌, ◌*◌, ◌≤◌};
ghost use Rattle.fm_tick.specs.Quotient.{IsFlat, IsSloped, flat_of, sloped_of};

use crate::{MAX_TICK, Stretch};

/// The longest slope that is computed in 64 bits, in ticks: the longest length that a score may
/// write. Its products fit whatever its stretches are.
const MAX_NARROW: u64 = 1_000_000;

/// What `x` ticks become under the steady stretch `s`, in ticks rounded down.
#[tactic(auto, unfolding(crate::specs::Quotient::flat_of))]
pub fn flat(x: u64, s: Stretch) -> u64
    requires { x ≤ MAX_TICK }
    ensures bounds { IsFlat x s.thousandths result }
    ensures value { result ≡ flat_of x s.thousandths }
    ensures small { result ≤ 1000 * x }
{
    x * u64::from(s.thousandths) / 1000
}

/// What the first `x` ticks become of a slope that goes evenly from the stretch `s0` to `s1` over
/// `v` ticks, in ticks rounded down.
pub fn sloped(x: u64, v: u64, s0: Stretch, s1: Stretch) -> u64
    requires positive { 1 ≤ v }
    requires limited { v ≤ MAX_TICK }
    requires inside { x ≤ v }
    ensures bounds { IsSloped x v s0.thousandths s1.thousandths result }
    ensures value { result ≡ sloped_of x v s0.thousandths s1.thousandths }
    ensures small { result ≤ 1000 * x }
{
    sloped_quotient(x, v, s0, s1)
}

// The number within the bounds of `sloped`, in as few bits as its products need.
fn sloped_quotient(x: u64, v: u64, s0: Stretch, s1: Stretch) -> u64
    requires positive { 1 ≤ v }
    requires limited { v ≤ MAX_TICK }
    requires inside { x ≤ v }
    ensures { IsSloped x v s0.thousandths s1.thousandths result }
{
    if v <= MAX_NARROW {
        narrow_sloped(x, v, s0, s1)
    } else {
        long_sloped(x, v, s0, s1)
    }
}

// `sloped` in 64 bits, by the sums of `wide_sloped`.
#[tactic(auto, unfolding(crate::specs::Quotient::sloped_of))]
fn narrow_sloped(x: u64, v: u64, s0: Stretch, s1: Stretch) -> u64
    requires whole { 1 ≤ v × (v ≤ MAX_NARROW) }
    requires inside { x ≤ v }
    ensures { IsSloped x v s0.thousandths s1.thousandths result }
{
    let falling = s0.thousandths as u64 * x * (2 * v - x);
    let rising = s1.thousandths as u64 * x * x;
    let sum = falling + rising;
    sum / (2000 * v)
}

// `sloped` of a slope of any length.
fn long_sloped(x: u64, v: u64, s0: Stretch, s1: Stretch) -> u64
    requires positive { 1 ≤ v }
    requires limited { v ≤ MAX_TICK }
    requires inside { x ≤ v }
    ensures { IsSloped x v s0.thousandths s1.thousandths result }
{
    wide_sloped(x as u128, v as u128, s0, s1) as u64
}

// `sloped` in 128 bits.
#[tactic(auto, unfolding(crate::specs::Quotient::sloped_of))]
fn wide_sloped(x: u128, v: u128, s0: Stretch, s1: Stretch) -> u128
    requires whole { 1 ≤ v × (v ≤ MAX_TICK) }
    requires inside { x ≤ v }
    ensures { IsSloped x v s0.thousandths s1.thousandths result }
{
    // 2 v s0 x + (s1 - s0) x x, without a difference of the stretches, which may be negative.
    let falling = s0.thousandths as u128 * x * (2 * v - x);
    let rising = s1.thousandths as u128 * x * x;
    (falling + rising) / (2000 * v)
}
