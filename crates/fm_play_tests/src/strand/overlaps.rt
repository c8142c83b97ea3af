//! Notes that overlap: what is due comes out before a point, a note cuts what has waited longest,
//! and the end cuts the rest.
ghost use Rattle.std.specs.Prelude.{◌≡◌, IfOk};
ghost use Rattle.fm_program.specs.declared.op.Draw.TheVariants as draw;
ghost use Rattle.fm_program.specs.declared.op.Op.TheVariants as op;
ghost use Rattle.fm_program.specs.declared.op.Point.TheVariants as point;
ghost use Rattle.fm_program.specs.declared.op.Span.TheVariants as span;
ghost use Rattle.fm_program.specs.declared.op.Turn.TheVariants as turn;
ghost use Rattle.fm_program.specs.Parts.{program_parts, stock_parts};
ghost use Rattle.fm_strand.specs.Worked.{ring_program, ring_stock};

use super::cuts::has_events;
use fm_msg::Profile;
use fm_program::{Draw, Op, Point, Program, Scopes, Span, Stock, Turn};
use fm_strand::Plan;
use std::alloc::{AllocError, Global};

/// The ticks and the bytes of the events, computed by hand.
const EVENTS: &[(u64, [u8; 3])] = &[
    (0, [0x90, 48, 64]),
    (0, [0x90, 49, 64]),
    (0, [0x90, 50, 64]),
    (0, [0x90, 51, 64]),
    (0, [0x90, 52, 64]),
    (0, [0x90, 53, 64]),
    (0, [0x90, 54, 64]),
    (0, [0x90, 55, 64]),
    (0, [0x90, 56, 64]),
    (0, [0x90, 57, 64]),
    (0, [0x90, 58, 64]),
    (0, [0x90, 59, 64]),
    (0, [0x90, 60, 64]),
    (0, [0x90, 61, 64]),
    (0, [0x90, 62, 64]),
    (0, [0x90, 63, 64]),
    (10, [0x80, 48, 64]),
    (10, [0x90, 76, 64]),
    (20, [0xB0, 7, 64]),
    (30, [0x80, 76, 64]),
    (30, [0xB0, 7, 65]),
    (35, [0x80, 49, 64]),
    (35, [0x80, 50, 64]),
    (35, [0x80, 51, 64]),
    (35, [0x80, 52, 64]),
    (35, [0x80, 53, 64]),
    (35, [0x80, 54, 64]),
    (35, [0x80, 55, 64]),
    (35, [0x80, 56, 64]),
    (35, [0x80, 57, 64]),
    (35, [0x80, 58, 64]),
    (35, [0x80, 59, 64]),
    (35, [0x80, 60, 64]),
    (35, [0x80, 61, 64]),
    (35, [0x80, 62, 64]),
    (35, [0x80, 63, 64]),
];

// A chord of sixteen keys, and one of one.
fn stock(alloc: Global) -> Result<Stock, AllocError>
    ensures { IfOk result (λ s. stock_parts s ≡ ring_stock) }
{
    let many = vec![in alloc;
        Draw::Fixed { value: 48 },
        Draw::Fixed { value: 49 },
        Draw::Fixed { value: 50 },
        Draw::Fixed { value: 51 },
        Draw::Fixed { value: 52 },
        Draw::Fixed { value: 53 },
        Draw::Fixed { value: 54 },
        Draw::Fixed { value: 55 },
        Draw::Fixed { value: 56 },
        Draw::Fixed { value: 57 },
        Draw::Fixed { value: 58 },
        Draw::Fixed { value: 59 },
        Draw::Fixed { value: 60 },
        Draw::Fixed { value: 61 },
        Draw::Fixed { value: 62 },
        Draw::Fixed { value: 63 },
    ]?;
    let one = vec![in alloc; Draw::Fixed { value: 76 }]?;
    Ok(Stock {
        exprs: Vec::new(alloc),
        lists: Vec::new(alloc),
        chords: vec![in alloc; many, one]?,
        scopes: Scopes::new(alloc),
        warps: Vec::new(alloc),
    })
}

// A note of this chord, ten ticks long, that sounds for so many percent of them.
fn note(chord: u32, percent: u32) -> Op
    ensures { result ≡ op.Note chord (span.Ticks 10) 0 (turn.Steady percent) (turn.Steady 64) 0 }
{
    Op::Note {
        chord,
        span: Span::Ticks { ticks: 10 },
        channel: 0,
        gate: Turn::Steady { value: percent },
        loud: Turn::Steady { value: 64 },
        scope: 0,
    }
}

// A control change to this value.
fn control(value: i32) -> Op
    ensures { result ≡ op.Send (point.Control 7) 0 (draw.Fixed value) 0 }
{
    Op::Send {
        point: Point::Control { controller: 7 },
        channel: 0,
        draw: Draw::Fixed { value },
        scope: 0,
    }
}

// So many ticks of silence.
fn rest(ticks: u32) -> Op
    ensures { result ≡ op.Rest (span.Ticks ticks) 0 }
{
    Op::Rest {
        span: Span::Ticks { ticks },
        scope: 0,
    }
}

// A chord, a note that needs its room, and two points.
fn program(alloc: Global) -> Result<Program, AllocError>
    ensures { IfOk result (λ p. program_parts p ≡ ring_program) }
{
    Ok(Program {
        ops: vec![in alloc;
            note(0, 400),
            note(1, 200),
            control(64),
            rest(10),
            control(65),
            rest(5),
        ]?,
        cycles: Vec::new(alloc),
        levels: Vec::new(alloc),
        predecessors: Vec::new(alloc),
    })
}

// The plan of that one process.
fn plan(alloc: Global) -> Result<Plan, AllocError> {
    let stock = stock(alloc)?;
    let program = program(alloc)?;
    let programs = vec![in alloc; program]?;
    Ok(Plan::of(stock, programs, 0, Profile::first()))
}

#[test]
fn overlapping_notes_are_the_same_whatever_the_quanta(rt: HostRuntime) -> Result<(), AllocError> {
    has_events(&rt, &plan(rt.alloc())?, EVENTS, 35)
}
