//! The operations on two whole numbers.
ghost use Rattle.std.specs.Prelude.{◌≡◌, ◌*ℤ◌};
ghost use Rattle.fm_value.specs.Operation.{IsWithin, clamped, floor_div, floor_rem, operated};

use crate::MAX_VALUE;

/// An operation on two whole numbers.
#[derive(Clone, Copy, Debug, PartialEq, Eq)]
pub enum Operation {
    Add,
    Subtract,
    Multiply,
    Divide,
    Remain,
    Min,
    Max,
    Less,
    Same,
}

const HIGH: i64 = MAX_VALUE as i64;

const LOW: i64 = -HIGH;

/// The nearest number within one million of 0.
pub fn clamp(x: i64) -> i64
    ensures value { result ≡ clamped x }
    ensures within { IsWithin result }
{
    x.clamp(LOW, HIGH)
}

fn divide(x: i64, y: i64) -> i64
    requires left { IsWithin x }
    requires right { IsWithin y }
    ensures { result ≡ floor_div x y }
{
    if y > 0 {
        x.div_euclid(y)
    } else if y < 0 {
        (-x).div_euclid(-y)
    } else {
        0
    }
}

fn remain(x: i64, y: i64) -> i64
    requires left { IsWithin x }
    requires right { IsWithin y }
    ensures { result ≡ floor_rem x y }
{
    if y == 0 { 0 } else { x - y * divide(x, y) }
}

fn multiply(x: i64, y: i64) -> i64
    requires left { IsWithin x }
    requires right { IsWithin y }
    ensures { result ≡ x *ℤ y }
{
    x * y
}

fn unclamped(operation: Operation, x: i64, y: i64) -> i64
    requires left { IsWithin x }
    requires right { IsWithin y }
    ensures { result ≡ operated operation x y }
{
    match operation {
        Operation::Add => x + y,
        Operation::Subtract => x - y,
        Operation::Multiply => multiply(x, y),
        Operation::Divide => divide(x, y),
        Operation::Remain => remain(x, y),
        Operation::Min => x.min(y),
        Operation::Max => x.max(y),
        Operation::Less => i64::from(x < y),
        Operation::Same => i64::from(x == y),
    }
}

/// The operation's result, clamped.
pub fn operate(operation: Operation, x: i64, y: i64) -> i64
    requires left { IsWithin x }
    requires right { IsWithin y }
    ensures value { result ≡ clamped (operated operation x y) }
    ensures within { IsWithin result }
{
    clamp(unclamped(operation, x, y))
}
