//! One note, of which several play a plan.

use crate::plans::{program, stock};
use fm_msg::Profile;
use fm_program::{Op, Plan, Span, Turn};
use std::alloc::{AllocError, Global};

/// A quarter note.
pub const NOTE: Op = Op::Note {
    chord: 0,
    span: Span::Ticks { ticks: 480 },
    channel: 0,
    gate: Turn::Steady { value: 90 },
    loud: Turn::Steady { value: 64 },
    scope: 0,
};

// A plan of one note.
pub fn plan_of_a_note(alloc: Global) -> Result<Plan, AllocError> {
    let stock = stock(alloc, Vec::new(alloc))?;
    let programs = vec![in alloc; program(alloc, &[], &[], &[NOTE])?]?;
    Ok(Plan::of(stock, programs, 0, Profile::first()))
}
