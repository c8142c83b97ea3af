//! How much time one tick takes.

ghost use Rattle.std.specs.Prelude.{◌≡◌, ◌≤◌, ◌↔◌, IfSome, IsSome};
ghost use Rattle.fm_tick.specs.declared.stretch.TheConstants.{MAX_STRETCH};

/// The greatest stretch, in thousandths.
pub const MAX_STRETCH: u32 = 1_000_000;

/// How many ticks of the level above one tick takes, in thousandths: 1 to `MAX_STRETCH`.
#[derive(Clone, Copy, Debug, PartialEq, Eq)]
pub struct Stretch {
    pub thousandths: u32,
    pub ghost positive: { 1 ≤ thousandths },
    pub ghost limited: { thousandths ≤ MAX_STRETCH },
}

impl Stretch {
    /// The stretch of so many thousandths, or `None` outside 1 to `MAX_STRETCH`.
    pub fn new(thousandths: u32) -> Option<Self>
        ensures in_range { IsSome result ↔ ((1 ≤ thousandths) × (thousandths ≤ MAX_STRETCH)) }
        ensures value { IfSome result (λ stretch. stretch.thousandths ≡ thousandths) }
    {
        if thousandths >= 1 && thousandths <= MAX_STRETCH {
            Some(Stretch { thousandths })
        } else {
            None
        }
    }

    /// The stretch in thousandths.
    pub fn get(self) -> u32
        ensures { result ≡ self.thousandths }
    {
        self.thousandths
    }
}
