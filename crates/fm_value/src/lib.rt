//! Expressions of a score: their values, the registers that they read, and the generator.
//!
//! An [`Expr`] is a postfix list of [`Node`]s. [`value`] computes it on whole numbers, clamped
//! after each operation, on a fixed stack. The main clause: `value` is the value of the one
//! operand tree whose postfix list it is, and the generator has stepped once for each draw.
//! How a text becomes an expression is left out.
#![tactic(auto)]

mod dice;
mod evaluation;
mod expr;
mod laws;
mod node;
mod operation;
mod registers;

pub use dice::Dice;
pub use evaluation::value;
pub use expr::{Expr, MAX_NODES, Spot2};
pub use laws::{each_tree_has_one_list, remainders_follow_the_divisor};
pub use node::{MAX_VALUE, Node};
pub use registers::{REGISTERS, Registers};
