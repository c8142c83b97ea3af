//! The generator.
ghost use Rattle.std.specs.Prelude.{◌≡◌, ℕ, ◌<◌, ◌^◌};
ghost use Rattle.fm_value.specs.Generator.{next_state, draw_below};

use std::marker::Model;

const MULTIPLIER: u64 = 6_364_136_223_846_793_005;

const INCREMENT: u64 = 1_442_695_040_888_963_407;

// How many low bits of a state no draw shows.
const LOW_BITS: u32 = 33;

/// A linear congruential generator with a state of 64 bits, which contracts see as that number.
#[derive(Debug, Drop)]
pub struct Dice {
    state: u64,
}

impl Model for Dice {
    ghost Value = { ℕ };

    ghost view = { λ d. d.state };
}

impl Dice {
    /// The generator in this state.
    pub fn new(state: u64) -> Dice
        ensures { result ≡ state }
    {
        Dice { state }
    }

    /// Steps the state and draws a number from 0 to `n` - 1; where `n` is below 1, it steps all
    /// the same and gives 0.
    pub fn pick(&mut self, n: i64) -> i64
        ensures state { self.new ≡ next_state self.old }
        ensures value { result ≡ draw_below n self.new }
    {
        self.state = self.state.wrapping_mul(MULTIPLIER).wrapping_add(INCREMENT);
        if n < 1 {
            return 0;
        }
        (self.state >> LOW_BITS) as i64 % n
    }
}
