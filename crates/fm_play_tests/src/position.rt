//! Worked lines, computed by hand.
ghost use Rattle.std.specs.Prelude.{◌≡◌, IfOk, map};
ghost use Rattle.fm_position.specs.Worked.{branch_plan, half_parts};
ghost use Rattle.fm_program.specs.Parts.{program_parts, stock_parts};

use crate::note::NOTE;
use crate::plans::{program, stock};
use crate::same::same;
use crate::shapes::steady;
use fm_msg::Profile;
use fm_position::locate_in;
use fm_program::{Op, Plan, Program, Span, Stock};
use fm_tick::MAX_TICK;
use fm_warp::Warp;
use std::alloc::{AllocError, Global};
use std::process::Abort;
use std::test::*;

/// A rest of 100 ticks.
const HUNDRED: Op = Op::Rest {
    span: Span::Ticks { ticks: 100 },
    scope: 0,
};

// A thousand ticks at half the time.
fn half(alloc: Global) -> Result<Warp, Fail>
    ensures { IfOk result (λ w. w ≡ half_parts) }
{
    let warp = steady(alloc, 1_000, 500)?;
    Ok(warp)
}

// The tables of the plan.
fn branch_stock(alloc: Global) -> Result<Stock, Fail>
    ensures { IfOk result (λ s. stock_parts s ≡ branch_plan.stock) }
{
    let warps = vec![in alloc; half(alloc)?]?;
    Ok(stock(alloc, warps)?)
}

// Its programs: 100 ticks in a level, a branch of one note there, and the level's end.
fn branch_programs(alloc: Global) -> Result<Vec<Program>, AllocError>
    ensures { IfOk result (λ ps. map program_parts ps.items ≡ branch_plan.programs) }
{
    let first = program(alloc, &[], &[], &[Op::Enter { warp: 0 }, HUNDRED])?;
    let branch = program(alloc, &[0], &[0], &[NOTE])?;
    let last = program(alloc, &[0], &[1], &[Op::Leave])?;
    Ok(vec![in alloc; first, branch, last]?)
}

// A level at half the time: in it 100 ticks, then a branch of one note, and the level's end.
pub fn branch_plan(alloc: Global) -> Result<Plan, Fail> {
    let stock = branch_stock(alloc)?;
    let programs = branch_programs(alloc)?;
    Ok(Plan::of(stock, programs, 0, Profile::first()))
}

/// A process, a tick, and what is told of it.
type Row = (u32, u64, &'static str);

const BRANCH: &[Row] = &[
    (1, 60, "process 1 levels 1 start 50 positions 120\n"),
    (1, 0, "process 1 levels 1 start 50 positions 0\n"),
    (2, 60, "process 2 levels 1 start 290 positions 120\n"),
    (0, 60, "process 0 levels 0 start 0 positions\n"),
    (1, MAX_TICK, "process 1 levels 1 start 50 never 1\n"),
];

// Compares what is told of a tick in a plan.
fn is_told<R: Abort + AllocGlobal>(rt: &R, plan: &Plan, row: &Row) -> Result<(), AllocError> {
    let (process, tick, line) = *row;
    assert!(rt; process < plan.processes() && tick <= MAX_TICK);
    let position = locate_in(rt.alloc(), plan, process, tick)?;
    same(rt, &position.line().as_str(), &line);
    Ok(())
}

// Compares what is told of ticks in a plan.
fn are_told<R: Abort + AllocGlobal>(rt: &R, plan: &Plan, rows: &[Row]) -> Result<(), AllocError> {
    for row in rows {
        is_told(rt, plan, row)?;
    }
    Ok(())
}

#[test]
fn a_tick_is_told_in_the_level_of_a_branch(rt: HostRuntime) -> Result<(), Fail> {
    Ok(are_told(&rt, &branch_plan(rt.alloc())?, BRANCH)?)
}
