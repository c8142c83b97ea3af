//! Shapes of the text as deformations.

ghost use Rattle.std.specs.Prelude.{◌≡◌, ◌≤◌, [], map, IfOk};
ghost use Rattle.fm_tick.specs.declared.stretch.TheConstants.{MAX_STRETCH};
ghost use Rattle.fm_warp.specs.Deformation.{IsPart};
ghost use Rattle.fm_warp.specs.declared.warp.TheConstants.{MAX_PARTS};
ghost use Rattle.fm_meaning.specs.Resolve.{stretch_of, part_of};
ghost use Rattle.fm_meaning.specs.Ranges.{length_spot, part_length, part_faults, each_faults};

use crate::length::ticks;
use fm_grammar::{Number, PartText};
use fm_tick::{MAX_STRETCH, Stretch};
use fm_warp::{Part, Warp, WarpFault};
use std::alloc::{AllocError, Global};

// A stretch.
fn stretch(number: Number) -> Stretch
    ensures { result ≡ stretch_of number.value }
{
    Stretch {
        thousandths: number.value.max(1).min(MAX_STRETCH),
    }
}

// A part that has no fault.
fn part_of(whole: u32, part: &PartText) -> Part
    requires { part_faults whole part.now ≡ [] }
    ensures value { result ≡ part_of whole part.now }
    ensures in_range { IsPart result }
{
    match part {
        PartText::Flat { length, by } => Part::Flat {
            length: ticks(whole, length),
            stretch: stretch(*by),
        },
        PartText::Slope { length, by, to } => Part::Slope {
            length: ticks(whole, length),
            from: stretch(*by),
            to: stretch(*to),
        },
        PartText::Pause { length } => Part::Pause {
            ticks: ticks(whole, length),
        },
        PartText::Breath { length } => Part::Breath {
            ticks: ticks(whole, length),
        },
    }
}

/// Parts that have no fault as a deformation, where a whole note has `whole` ticks. It fails only
/// for want of memory.
pub fn warp_of(alloc: Global, whole: u32, parts: &[PartText]) -> Result<Warp, AllocError>
    requires { each_faults (part_faults whole) (λ p. length_spot (part_length p)) MAX_PARTS
        parts.now ≡ [] }
    ensures { IfOk result (λ w. w ≡ map (part_of whole) parts.now) }
{
    let mut warp = Warp::new(alloc);
    for part in parts {
        match warp.push(part_of(whole, part)) {
            Ok(()) => {}
            Err(WarpFault::Memory) => return Err(AllocError),
            Err(WarpFault::TooManyParts) => unreachable!(),
        }
    }
    Ok(warp)
}
