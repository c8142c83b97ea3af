//! The value of an expression, on a fixed stack of operands.
ghost use Rattle.std.specs.Prelude.{◌≡◌, ℕ, ℤ, ◌+◌, ◌<◌, ◌≤◌, List, [], ◌∷◌, ◌++◌, length, IsTrue, All, Some};
ghost use Rattle.arrayvec.specs.ArrayVec.{array_vec_len};
ghost use Rattle.fm_value.specs.declared.node.TheConstants.{MAX_VALUE};
ghost use Rattle.fm_value.specs.declared.expr.TheConstants.{MAX_NODES};
ghost use Rattle.fm_value.specs.Operation.{IsWithin};
ghost use Rattle.fm_value.specs.Stack.{operand_count, Joins, Computes};
ghost use Rattle.fm_value.specs.Value.{readable, is_expr, node_fits, value_of};

use crate::operation::{Operation, clamp, operate};
use crate::{Dice, Expr, MAX_NODES, Node, Registers};
use arrayvec::ArrayVec;

// How many nodes a short expression has at most. Its stack is cleared in a few stores.
const SHORT: usize = 8;

/// The value of an expression. `indices` are those of the open loops, the innermost first, each
/// below 1,000,000. Each `pick` steps the generator, the left operand's before the right one's.
pub fn value(expr: &Expr, registers: &Registers, dice: &mut Dice, indices: &[u32]) -> i64
    requires expr { IsTrue (is_expr (length indices.now) expr.now.nodes.items) }
    requires indices { All (λ i. i < MAX_VALUE) indices.now }
    ensures value { let read = readable registers.now indices.now in
        result ≡ (value_of read expr.now.nodes.items dice.old).value }
    ensures dice { let read = readable registers.now indices.now in
        dice.new ≡ (value_of read expr.now.nodes.items dice.old).state }
    ensures within { IsWithin result }
{
    if expr.nodes.len() <= SHORT {
        evaluate::<SHORT>(expr, registers, dice, indices)
    } else {
        evaluate::<MAX_NODES>(expr, registers, dice, indices)
    }
}

// The value, on a stack with room for as many operands as the expression has nodes.
fn evaluate<const N: usize>(
    expr: &Expr,
    registers: &Registers,
    dice: &mut Dice,
    indices: &[u32],
) -> i64
    requires expr { IsTrue (is_expr (length indices.now) expr.now.nodes.items) }
    requires room { length expr.now.nodes.items ≤ N }
    requires few { N ≤ MAX_NODES }
    requires indices { All (λ i. i < MAX_VALUE) indices.now }
    ensures value { let read = readable registers.now indices.now in
        result ≡ (value_of read expr.now.nodes.items dice.old).value }
    ensures dice { let read = readable registers.now indices.now in
        dice.new ≡ (value_of read expr.now.nodes.items dice.old).state }
    ensures within { IsWithin result }
{
    let mut operands: ArrayVec<i64, N> = ArrayVec::new();
    for node in &expr.nodes {
        let value = compute(*node, &mut operands, registers, dice, indices);
        operands.push(value);
    }
    take(&mut operands)
}

// The value that a node puts on the stack, with its operands taken off.
fn compute<const N: usize>(
    node: Node,
    operands: &mut ArrayVec<i64, N>,
    registers: &Registers,
    dice: &mut Dice,
    indices: &[u32],
) -> i64
    requires fits { IsTrue (node_fits (length indices.now) node) }
    requires there { operand_count node ≤ array_vec_len operands.old }
    requires operands { All IsWithin operands.old.items }
    requires indices { All (λ i. i < MAX_VALUE) indices.now }
    ensures value { Computes (readable registers.now indices.now) node operands.old.items dice.old
        (operands.new.items ++ result ∷ []) dice.new }
    ensures within { IsWithin result }
    ensures operands { All IsWithin operands.new.items }
    ensures len { array_vec_len operands.new ≤ array_vec_len operands.old }
{
    match node {
        Node::Literal(n) => i64::from(n),
        Node::Register(k) => registers.get(u32::from(k)),
        Node::Index(k) => i64::from(indices[k as usize]),
        Node::Negate => clamp(-take(operands)),
        Node::Pick => dice.pick(take(operands)),
        Node::Add => join(Operation::Add, operands),
        Node::Subtract => join(Operation::Subtract, operands),
        Node::Multiply => join(Operation::Multiply, operands),
        Node::Divide => join(Operation::Divide, operands),
        Node::Remain => join(Operation::Remain, operands),
        Node::Min => join(Operation::Min, operands),
        Node::Max => join(Operation::Max, operands),
        Node::Less => join(Operation::Less, operands),
        Node::Same => join(Operation::Same, operands),
    }
}

fn take<const N: usize>(operands: &mut ArrayVec<i64, N>) -> i64
    requires there { 0 < array_vec_len operands.old }
    requires operands { All IsWithin operands.old.items }
    ensures value { operands.old.items ≡ operands.new.items ++ result ∷ [] }
    ensures within { IsWithin result }
    ensures operands { All IsWithin operands.new.items }
    ensures len { array_vec_len operands.new + 1 ≡ array_vec_len operands.old }
{
    match operands.pop() {
        Some(x) => x,
        None => unreachable!(),
    }
}

fn join<const N: usize>(operation: Operation, operands: &mut ArrayVec<i64, N>) -> i64
    requires there { 2 ≤ array_vec_len operands.old }
    requires operands { All IsWithin operands.old.items }
    ensures value { Joins operation operands.old.items operands.new.items result }
    ensures within { IsWithin result }
    ensures operands { All IsWithin operands.new.items }
    ensures len { array_vec_len operands.new + 2 ≡ array_vec_len operands.old }
{
    let right = take(operands);
    let left = take(operands);
    operate(operation, left, right)
}
