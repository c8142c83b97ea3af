//! Three voices that start together and end at different times: their plan and its file.
ghost use Rattle.std.specs.Prelude.{◌≡◌, [], ◌∷◌, IfOk, map, pos, take};
ghost use Rattle.fm_program.proofs.Voices.{three_voices};
ghost use Rattle.fm_program.specs.Parts.{program_parts, stock_parts};
ghost use Rattle.fm_program.specs.declared.op.Draw.TheVariants as draw;

use fm_msg::Profile;
use fm_program::{Draw, Op, Plan, Program, Scopes, Span, Stock, Turn};
use std::alloc::{AllocError, Global};

/// The file: three note-ons at 0, note-offs at 216, 432 and 864, the end at 960.
pub const FILE: [u8; 60] = [
    0x4D, 0x54, 0x68, 0x64, 0, 0, 0, 6, 0, 0, 0, 1, 1, 0xE0, 0x4D, 0x54, 0x72, 0x6B, 0, 0, 0, 0x26,
    0, 0xFF, 0x51, 3, 7, 0xA1, 0x20, 0, 0x90, 0x3C, 0x40, 0, 0x90, 0x40, 0x40, 0, 0x90, 0x43, 0x40,
    0x81, 0x58, 0x80, 0x40, 0x40, 0x81, 0x58, 0x80, 0x3C, 0x40, 0x83, 0x30, 0x80, 0x43, 0x40, 0x60,
    0xFF, 0x2F, 0,
];

/// A quarter note of the first chord.
const QUARTER: Op = Op::Note {
    chord: 0,
    span: Span::Ticks { ticks: 480 },
    channel: 0,
    gate: Turn::Steady { value: 90 },
    loud: Turn::Steady { value: 64 },
    scope: 0,
};

/// An eighth note of the second one.
const EIGHTH: Op = Op::Note {
    chord: 1,
    span: Span::Ticks { ticks: 240 },
    channel: 0,
    gate: Turn::Steady { value: 90 },
    loud: Turn::Steady { value: 64 },
    scope: 0,
};

/// A half note of the third one.
const HALF: Op = Op::Note {
    chord: 2,
    span: Span::Ticks { ticks: 960 },
    channel: 0,
    gate: Turn::Steady { value: 90 },
    loud: Turn::Steady { value: 64 },
    scope: 0,
};

// Three chords of one key each.
fn three_chords(alloc: Global) -> Result<Stock, AllocError>
    ensures { IfOk result (λ s. stock_parts s ≡ record {
      exprs = [];
      lists = [];
      chords = (draw.Fixed (pos 60) ∷ []) ∷ (draw.Fixed (pos 64) ∷ [])
          ∷ (draw.Fixed (pos 67) ∷ []) ∷ [];
      scopes = [] ∷ [];
      warps = [];
    }) }
{
    let first = vec![in alloc; Draw::Fixed { value: 60 }]?;
    let second = vec![in alloc; Draw::Fixed { value: 64 }]?;
    let third = vec![in alloc; Draw::Fixed { value: 67 }]?;
    Ok(Stock {
        exprs: Vec::new(alloc),
        lists: Vec::new(alloc),
        chords: vec![in alloc; first, second, third]?,
        scopes: Scopes::new(alloc),
        warps: Vec::new(alloc),
    })
}

// These operations behind these processes.
fn behind(alloc: Global, predecessors: Vec<u32>, ops: Vec<Op>) -> Program
    ensures { program_parts result ≡ record {
      ops = ops.items;
      cycles = [];
      levels = [];
      predecessors = predecessors.items;
    } }
{
    Program {
        ops,
        cycles: Vec::new(alloc),
        levels: Vec::new(alloc),
        predecessors,
    }
}

// A note behind process 0.
fn voice(alloc: Global, note: Op) -> Result<Program, AllocError>
    ensures { IfOk result (λ p. program_parts p ≡ record {
      ops = note ∷ [];
      cycles = [];
      levels = [];
      predecessors = 0 ∷ [];
    }) }
{
    let ops = vec![in alloc; note]?;
    Ok(behind(alloc, vec![in alloc; 0]?, ops))
}

// An empty process, and three voices behind it.
fn voices(alloc: Global) -> Result<Vec<Program>, AllocError>
    ensures { IfOk result (λ ps. map program_parts ps.items ≡ take 4 three_voices.programs) }
{
    let root = behind(alloc, Vec::new(alloc), Vec::new(alloc));
    let quarter = voice(alloc, QUARTER)?;
    let eighth = voice(alloc, EIGHTH)?;
    let half = voice(alloc, HALF)?;
    Ok(vec![in alloc; root, quarter, eighth, half]?)
}

// The voices, and an empty process behind them.
fn programs(alloc: Global) -> Result<Vec<Program>, AllocError>
    ensures { IfOk result (λ ps. map program_parts ps.items ≡ three_voices.programs) }
{
    let close = behind(alloc, vec![in alloc; 1, 2, 3]?, Vec::new(alloc));
    let mut programs = voices(alloc)?;
    programs.push(close)?;
    Ok(programs)
}

// Three voices between two empty processes.
pub fn plan_of_three_voices(alloc: Global) -> Result<Plan, AllocError> {
    let programs = programs(alloc)?;
    let stock = three_chords(alloc)?;
    Ok(Plan::of(stock, programs, 0, Profile::first()))
}
