//! Programs and tables, of which plans are made.
ghost use Rattle.std.specs.Prelude.{◌≡◌, IfOk};
ghost use Rattle.fm_position.specs.Worked.{program_in, stock_with};
ghost use Rattle.fm_program.specs.Parts.{program_parts, stock_parts};

use fm_program::{Draw, Op, Program, Scopes, Stock};
use fm_warp::Warp;
use std::alloc::{AllocError, Global};

// Tables with a chord of one key, and deformations.
pub fn stock(alloc: Global, warps: Vec<Warp>) -> Result<Stock, AllocError>
    ensures { IfOk result (λ s. stock_parts s ≡ stock_with warps.items) }
{
    let chord = vec![in alloc; Draw::Fixed { value: 60 }]?;
    Ok(Stock {
        exprs: Vec::new(alloc),
        lists: Vec::new(alloc),
        chords: vec![in alloc; chord]?,
        scopes: Scopes::new(alloc),
        warps,
    })
}

// A program in levels, after other processes.
pub fn program(
    alloc: Global,
    levels: &[u32],
    predecessors: &[u32],
    ops: &[Op],
) -> Result<Program, AllocError>
    ensures { IfOk result (λ p.
        program_parts p ≡ program_in levels.now predecessors.now ops.now) }
{
    Ok(Program {
        ops: ops.to_vec(alloc)?,
        cycles: Vec::new(alloc),
        levels: levels.to_vec(alloc)?,
        predecessors: predecessors.to_vec(alloc)?,
    })
}
