//! The eight registers of a process.
ghost use Rattle.std.specs.Prelude.{◌≡◌, ℤ, pos, ◌<◌, List, All, slice_index_or, slice_set, length, replicate};
ghost use Rattle.fm_value.specs.Operation.{IsWithin};

use std::marker::Model;

/// How many registers a process has.
pub const REGISTERS: usize = 8;

/// The registers of a process, which contracts see as the list of their eight values, each within
/// one million of 0.
#[derive(Debug, Drop)]
pub struct Registers {
    values: [i64; REGISTERS],
}

impl Model for Registers {
    ghost Value = { List ℤ };

    ghost view = { λ r. r.values };

    ghost invariant = { λ r. All IsWithin r.values };
}

impl Registers {
    /// Eight registers of value 0.
    pub fn new() -> Registers
        ensures { result ≡ replicate REGISTERS (pos 0) }
    {
        Registers {
            values: [0; REGISTERS],
        }
    }

    /// The value of the register `k`.
    pub fn get(&self, k: u32) -> i64
        requires { k < REGISTERS }
        ensures value { result ≡ slice_index_or self.now k (pos 0) }
        ensures within { IsWithin result }
    {
        self.values[k as usize]
    }

    /// Gives the register `k` a value.
    pub fn set(&mut self, k: u32, value: i64)
        requires index { k < REGISTERS }
        requires within { IsWithin value }
        ensures { self.new ≡ slice_set self.old k value }
    {
        self.values[k as usize] = value;
    }
}
