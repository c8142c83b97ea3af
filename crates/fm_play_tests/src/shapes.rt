//! Deformations of one part, of which several tests make one.
ghost use Rattle.std.specs.Prelude.{◌≡◌, ◌≤◌, [], ◌∷◌, All, IfOk, length};
ghost use Rattle.fm_tick.specs.declared.stretch.Stretch.{Stretch};
ghost use Rattle.fm_tick.specs.declared.stretch.TheConstants.{MAX_STRETCH};
ghost use Rattle.fm_warp.specs.Deformation.{IsPart};
ghost use Rattle.fm_warp.specs.declared.part.Part.TheVariants.{Flat};

use fm_tick::Stretch;
use fm_warp::{MAX_PART_TICKS, Part, Warp};
use std::alloc::Global;
use std::test::Fail;

// The stretch of so many thousandths.
pub fn stretch(thousandths: u32) -> Stretch
    requires { (1 ≤ thousandths) × (thousandths ≤ MAX_STRETCH) }
    ensures { result.thousandths ≡ thousandths }
{
    Stretch { thousandths }
}

// A deformation of one part.
pub fn warp_of(alloc: Global, part: Part) -> Result<Warp, Fail>
    requires { IsPart part }
    ensures in_range { IfOk result (All IsPart) }
    ensures one { IfOk result (λ warp. length warp ≡ 1) }
    ensures is { IfOk result (λ warp. warp ≡ part ∷ []) }
{
    let mut warp = Warp::new(alloc);
    warp.push(part)?;
    let _parts = warp.parts();
    Ok(warp)
}

// A deformation of one steady part.
pub fn steady(alloc: Global, ticks: u32, thousandths: u32) -> Result<Warp, Fail>
    requires ticks { (1 ≤ ticks) × (ticks ≤ MAX_PART_TICKS) }
    requires stretch { (1 ≤ thousandths) × (thousandths ≤ MAX_STRETCH) }
    ensures in_range { IfOk result (All IsPart) }
    ensures one { IfOk result (λ warp. length warp ≡ 1) }
    ensures is { IfOk result (λ warp. (stretch : Stretch) ×
        (warp ≡ Flat ticks stretch ∷ []) × (stretch.thousandths ≡ thousandths)) }
{
    let part = Part::Flat {
        length: ticks,
        stretch: stretch(thousandths),
    };
    let warp = warp_of(alloc, part)?;
    Ok(warp)
}
