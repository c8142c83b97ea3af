//! The nodes of an expression.

/// The greatest literal, and the greatest size of a value on both sides of 0.
pub const MAX_VALUE: u32 = 1_000_000;

/// A node of a postfix list. An operation stands behind its operands, of which the left one is
/// first.
#[derive(Clone, Copy, Debug, PartialEq, Eq)]
pub enum Node {
    /// A number, at most 1,000,000.
    Literal(u32),
    /// A register, 0 to 7.
    Register(u8),
    /// The index of an open loop, where 0 is the innermost.
    Index(u8),
    Negate,
    Add,
    Subtract,
    Multiply,
    /// The floor of the quotient, 0 where the divisor is 0.
    Divide,
    /// What the floor of the quotient leaves, 0 where the divisor is 0.
    Remain,
    /// A draw below the operand.
    Pick,
    Min,
    Max,
    /// 1 where the left operand is below the right one, else 0.
    Less,
    /// 1 where the operands are equal, else 0.
    Same,
}
