//! A process with operations of all kinds.
ghost use Rattle.std.specs.Prelude.{◌≡◌, map, IfOk, vec_items};
ghost use Rattle.fm_program.specs.Parts.{expr_nodes, program_parts, stock_parts};
ghost use Rattle.fm_strand.specs.Worked.{inner_parts, outer_parts, rich_program, rich_stock};

use crate::shapes::stretch;
use fm_msg::Profile;
use fm_program::{Count, Draw, Op, Point, Program, Scopes, Slot, Span, Stock, Turn};
use fm_strand::Plan;
use fm_value::{Expr, Node, Spot2};
use fm_warp::{Part, Warp};
use std::alloc::{AllocError, Global};
use std::test::Fail;

/// A note of the drawn chord, its duration of the outer list and its articulation of the inner one.
const NOTE: Op = Op::Note {
    chord: 0,
    span: Span::Cycle { frame: 0 },
    channel: 1,
    gate: Turn::Cycle { frame: 2 },
    loud: Turn::Steady { value: 64 },
    scope: 2,
};

/// A note behind the inner blocks.
const LAST: Op = Op::Note {
    chord: 1,
    span: Span::Cycle { frame: 0 },
    channel: 2,
    gate: Turn::Steady { value: 90 },
    loud: Turn::Steady { value: 80 },
    scope: 1,
};

/// Where a node of an expression is said to stand.
pub(super) const SPOT: Spot2 = Spot2 {
    line: 3,
    column: 14,
};

// An expression with the spot of its first node.
fn expr_at_spot(alloc: Global, nodes: Vec<Node>) -> Result<Expr, AllocError>
    ensures { IfOk result (λ e. expr_nodes e ≡ nodes.items) }
{
    let spots = vec![in alloc; SPOT]?;
    Ok(Expr { nodes, spots })
}

// An expression that stands in no text.
fn expr(alloc: Global, nodes: Vec<Node>) -> Expr
    ensures { expr_nodes result ≡ nodes.items }
{
    Expr {
        nodes,
        spots: Vec::new(alloc),
    }
}

// Expressions with draws, indices and a register.
fn exprs(alloc: Global) -> Result<Vec<Expr>, AllocError>
    ensures { IfOk result (λ es. map expr_nodes es.items ≡ rich_stock.exprs) }
{
    let key = vec![in alloc; Node::Literal(12), Node::Pick, Node::Literal(60), Node::Add]?;
    let round = vec![in alloc; Node::Index(0), Node::Literal(1), Node::Subtract]?;
    let control = vec![in alloc;
        Node::Register(0),
        Node::Index(0),
        Node::Add,
        Node::Index(1),
        Node::Subtract,
    ]?;
    let rounds = vec![in alloc; Node::Literal(3), Node::Pick, Node::Literal(1), Node::Add]?;
    let key = expr_at_spot(alloc, key)?;
    Ok(vec![in alloc;
        key,
        expr(alloc, round),
        expr(alloc, control),
        expr(alloc, rounds),
    ]?)
}

// Half as long again, and then a breath.
fn outer_warp(alloc: Global) -> Result<Warp, Fail>
    ensures { IfOk result (λ w. w ≡ outer_parts) }
{
    let mut warp = Warp::new(alloc);
    warp.push(Part::Flat {
        length: 480,
        stretch: stretch(1_500),
    })?;
    warp.push(Part::Breath { ticks: 20 })?;
    Ok(warp)
}

// A pause, and then half as long.
fn inner_warp(alloc: Global) -> Result<Warp, Fail>
    ensures { IfOk result (λ w. w ≡ inner_parts) }
{
    let mut warp = Warp::new(alloc);
    warp.push(Part::Pause { ticks: 10 })?;
    warp.push(Part::Flat {
        length: 300,
        stretch: stretch(500),
    })?;
    Ok(warp)
}

// Durations and articulations.
fn lists(alloc: Global) -> Result<Vec<Vec<u32>>, AllocError>
    ensures { IfOk result (λ lists. map vec_items lists.items ≡ rich_stock.lists) }
{
    let durations = vec![in alloc; 480, 240, 120]?;
    let gates = vec![in alloc; 50, 100, 0]?;
    Ok(vec![in alloc; durations, gates]?)
}

// Chords of two keys and of one.
fn chords(alloc: Global) -> Result<Vec<Vec<Draw>>, AllocError>
    ensures { IfOk result (λ chords. map vec_items chords.items ≡ rich_stock.chords) }
{
    let two = vec![in alloc; Draw::Drawn { expr: 0 }, Draw::Fixed { value: 67 }]?;
    let one = vec![in alloc; Draw::Fixed { value: 48 }]?;
    Ok(vec![in alloc; two, one]?)
}

// A scope of one loop, and one of another loop in it.
fn scopes(alloc: Global) -> Result<Scopes, AllocError>
    ensures { IfOk result (λ scopes. scopes ≡ rich_stock.scopes) }
{
    let mut scopes = Scopes::new(alloc);
    let outer = scopes.push(Slot::Frame { frame: 1 }, 0)?;
    scopes.push(Slot::Frame { frame: 3 }, outer)?;
    Ok(scopes)
}

// Both deformations.
fn warps(alloc: Global) -> Result<Vec<Warp>, Fail>
    ensures { IfOk result (λ warps. warps.items ≡ rich_stock.warps) }
{
    let outer = outer_warp(alloc)?;
    let inner = inner_warp(alloc)?;
    Ok(vec![in alloc; outer, inner]?)
}

// The tables with these expressions and deformations.
fn stock_with(alloc: Global, exprs: Vec<Expr>, warps: Vec<Warp>) -> Result<Stock, AllocError>
    ensures { IfOk result (λ s. stock_parts s ≡ record {
      exprs = map expr_nodes exprs.items;
      lists = rich_stock.lists;
      chords = rich_stock.chords;
      scopes = rich_stock.scopes;
      warps = warps.items;
    }) }
{
    let lists = lists(alloc)?;
    let chords = chords(alloc)?;
    Ok(Stock {
        exprs,
        lists,
        chords,
        scopes: scopes(alloc)?,
        warps,
    })
}

// The tables.
fn stock(alloc: Global) -> Result<Stock, Fail>
    ensures { IfOk result (λ s. stock_parts s ≡ rich_stock) }
{
    let exprs = exprs(alloc)?;
    let warps = warps(alloc)?;
    Ok(stock_with(alloc, exprs, warps)?)
}

// A list round a level, in it a loop of three rounds; in each round a list and a level round a
// loop of drawn rounds, and a choice by the round.
fn program(alloc: Global) -> Result<Program, AllocError>
    ensures { IfOk result (λ p. program_parts p ≡ rich_program) }
{
    let ops = vec![in alloc;
        Op::Begin { list: 0 },
        Op::Set {
            register: 0,
            expr: 0,
            scope: 0
        },
        Op::Enter { warp: 0 },
        Op::Loop {
            count: Count::Fixed { count: 3 },
            scope: 0,
            past: 17
        },
        Op::Begin { list: 1 },
        Op::Enter { warp: 1 },
        Op::Loop {
            count: Count::Drawn { expr: 3, most: 4 },
            scope: 1,
            past: 10
        },
        NOTE,
        Op::Send {
            point: Point::Control { controller: 7 },
            channel: 1,
            draw: Draw::Drawn { expr: 2 },
            scope: 2
        },
        Op::Again { back: 7 },
        Op::Leave,
        Op::Close,
        Op::Test {
            expr: 1,
            scope: 1,
            past: 15
        },
        LAST,
        Op::Jump { target: 16 },
        Op::Send {
            point: Point::Bend,
            channel: 1,
            draw: Draw::Drawn { expr: 1 },
            scope: 1
        },
        Op::Again { back: 4 },
        Op::Leave,
        Op::Rest {
            span: Span::Cycle { frame: 0 },
            scope: 0
        },
        Op::Close,
    ]?;
    Ok(Program {
        ops,
        cycles: Vec::new(alloc),
        levels: Vec::new(alloc),
        predecessors: Vec::new(alloc),
    })
}

// The plan of that one process.
pub(super) fn plan(alloc: Global) -> Result<Plan, Fail> {
    let stock = stock(alloc)?;
    let program = program(alloc)?;
    let programs = vec![in alloc; program]?;
    Ok(Plan::of(stock, programs, 5, Profile::first()))
}
