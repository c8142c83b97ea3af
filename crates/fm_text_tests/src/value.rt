//! Operations at their edges, draws, and one caller.
ghost use Rattle.std.specs.Prelude.{[], ◌∷◌, IsTrue};
ghost use Rattle.fm_value.specs.Value.{is_expr};
ghost use Rattle.fm_value.specs.declared.node.Node.TheVariants.{Register};

use crate::same::same;
use fm_value::{Dice, Expr, Node, Registers, Spot2, value};
use std::alloc::{AllocError, Global};
use std::process::Abort;

const SPOT: Spot2 = Spot2 { line: 1, column: 1 };

// The value of an operation on the registers 0 and 1, which hold x and y.
fn on_two<R: Abort>(rt: &R, alloc: Global, node: Node, x: i64, y: i64) -> Result<i64, AllocError>
    requires { IsTrue (is_expr 0 (Register 0 ∷ Register 1 ∷ node ∷ [])) }
{
    assert!(rt; -1_000_000 <= x && x <= 1_000_000);
    assert!(rt; -1_000_000 <= y && y <= 1_000_000);
    let mut registers = Registers::new();
    registers.set(0, x);
    registers.set(1, y);
    let nodes = vec![in alloc; Node::Register(0), Node::Register(1), node]?;
    let spots = vec![in alloc; SPOT, SPOT, SPOT]?;
    let expr = Expr { nodes, spots };
    Ok(value(&expr, &registers, &mut Dice::new(0), &[]))
}

/// Two numbers and the result of an operation on them.
type Row = (i64, i64, i64);

const QUOTIENTS: &[Row] = &[
    (7, 2, 3),
    (-7, 2, -4),
    (7, -2, -4),
    (-7, -2, 3),
    (7, 0, 0),
    (0, -7, 0),
    (-1, 1_000_000, -1),
    (1_000_000, -1, -1_000_000),
    (-1_000_000, -1, 1_000_000),
    (-1_000_000, 3, -333_334),
];

const REMAINDERS: &[Row] = &[
    (7, 2, 1),
    (-7, 2, 1),
    (7, -2, -1),
    (-7, -2, -1),
    (7, 0, 0),
    (0, -7, 0),
    (-1, 1_000_000, 999_999),
    (1, -1_000_000, -999_999),
    (-1_000_000, 3, 2),
];

const SUMS: &[Row] = &[
    (999_999, 1, 1_000_000),
    (1_000_000, 1, 1_000_000),
    (-1_000_000, -1, -1_000_000),
];

const DIFFERENCES: &[Row] = &[
    (0, -1_000_000, 1_000_000),
    (1_000_000, -1, 1_000_000),
    (-1_000_000, 1, -1_000_000),
];

const PRODUCTS: &[Row] = &[
    (1_000, 1_000, 1_000_000),
    (1_001, 1_000, 1_000_000),
    (-1_001, 1_000, -1_000_000),
    (-1_000_000, -1_000_000, 1_000_000),
    (0, -1_000_000, 0),
];

const LEAST: &[Row] = &[
    (-1, 0, -1),
    (0, -1, -1),
    (3, 3, 3),
    (-1, 1, -1),
    (0, 0, 0),
    (1_000_000, -1_000_000, -1_000_000),
    (-1_000_000, -1_000_000, -1_000_000),
];

const GREATEST: &[Row] = &[
    (-1, 0, 0),
    (0, -1, 0),
    (3, 3, 3),
    (-1, 1, 1),
    (0, 0, 0),
    (1_000_000, -1_000_000, 1_000_000),
    (-1_000_000, -1_000_000, -1_000_000),
];

const LESS: &[Row] = &[
    (-1, 0, 1),
    (0, -1, 0),
    (3, 3, 0),
    (-1, 1, 1),
    (0, 0, 0),
    (1_000_000, -1_000_000, 0),
    (-1_000_000, -1_000_000, 0),
];

const SAME: &[Row] = &[
    (-1, 0, 0),
    (0, -1, 0),
    (3, 3, 1),
    (-1, 1, 0),
    (0, 0, 1),
    (1_000_000, -1_000_000, 0),
    (-1_000_000, -1_000_000, 1),
];

// Compares what an operation gives with each row.
fn check_rows<R: Abort>(rt: &R, alloc: Global, node: Node, rows: &[Row]) -> Result<(), AllocError>
    requires { IsTrue (is_expr 0 (Register 0 ∷ Register 1 ∷ node ∷ [])) }
{
    for (x, y, want) in rows {
        let found = on_two(rt, alloc, node, *x, *y)?;
        same(rt, &(*x, *y, found), &(*x, *y, *want));
    }
    Ok(())
}

#[test]
fn quotients_are_floors_and_0_at_0(rt: HostRuntime) -> Result<(), AllocError> {
    check_rows(&rt, rt.alloc(), Node::Divide, QUOTIENTS)?;
    check_rows(&rt, rt.alloc(), Node::Remain, REMAINDERS)
}

#[test]
fn results_are_clamped_to_one_million(rt: HostRuntime) -> Result<(), AllocError> {
    check_rows(&rt, rt.alloc(), Node::Add, SUMS)?;
    check_rows(&rt, rt.alloc(), Node::Subtract, DIFFERENCES)?;
    check_rows(&rt, rt.alloc(), Node::Multiply, PRODUCTS)
}

#[test]
fn comparisons_at_the_signs(rt: HostRuntime) -> Result<(), AllocError> {
    check_rows(&rt, rt.alloc(), Node::Min, LEAST)?;
    check_rows(&rt, rt.alloc(), Node::Max, GREATEST)?;
    check_rows(&rt, rt.alloc(), Node::Less, LESS)?;
    check_rows(&rt, rt.alloc(), Node::Same, SAME)
}

/// What a register holds, and 20 less it.
const NEGATED: &[(i64, i64)] = &[
    (0, 20),
    (7, 13),
    (1_000_000, -999_980),
    (-1_000_000, 1_000_000),
];

// What register 7 holds behind a setting to x, and the outer one of two indices, 20, less it.
fn negated<R: Abort>(rt: &R, alloc: Global, x: i64) -> Result<(i64, i64), AllocError> {
    assert!(rt; -1_000_000 <= x && x <= 1_000_000);
    let mut registers = Registers::new();
    registers.set(7, x);
    let nodes = vec![in alloc; Node::Register(7), Node::Negate, Node::Index(1), Node::Add]?;
    let spots = vec![in alloc; SPOT, SPOT, SPOT, SPOT]?;
    let expr = Expr { nodes, spots }.clone()?;
    let found = value(&expr, &registers, &mut Dice::new(5), &[10, 20]);
    Ok((registers.get(7), found))
}

#[test]
fn a_negated_register_and_an_index(rt: HostRuntime) -> Result<(), AllocError> {
    for (x, want) in NEGATED {
        same(&rt, &negated(&rt, rt.alloc(), *x)?, &(*x, *want));
    }
    Ok(())
}

// The value of 60 and a draw below 12.
fn drawn(alloc: Global, dice: &mut Dice) -> Result<i64, AllocError> {
    let nodes = vec![in alloc; Node::Literal(60), Node::Literal(12), Node::Pick, Node::Add]?;
    let spots = vec![in alloc; SPOT, SPOT, SPOT, SPOT]?;
    let expr = Expr { nodes, spots };
    Ok(value(&expr, &Registers::new(), dice, &[]))
}

#[test]
fn a_draw_below_1_steps_the_generator(rt: HostRuntime) -> Result<(), AllocError> {
    let mut dice = Dice::new(0);
    let sum = drawn(rt.alloc(), &mut dice)?;
    let first = Dice::new(0).pick(12);
    // The first three draws show 167951807, 218396424 and 1299921937.
    let draws = (dice.pick(-5), dice.pick(1_000));
    same(&rt, &(sum, first, draws), &(71, 11, (0, 937)));
    Ok(())
}
