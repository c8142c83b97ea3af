//! What stands before the block of a statement that has one.

use crate::length::Length;
use crate::name::Name;
use crate::number::Number;
use fm_value::Expr;

/// What a statement with one block says before it. A choice has two blocks, and a fork says nothing
/// before its branches, so neither is one of these.
#[derive(Drop)]
pub enum Opening<'s> {
    Repeat { count: Number },
    Again { count: Expr, most: Number },
    Warp { name: Name<'s> },
    Channel { number: Number },
    Volume { number: Number },
    Gate { number: Number },
    Rhythm { list: Vec<Length> },
    Artic { list: Vec<Number> },
    Loud { list: Vec<Number> },
}
