//! Worked shapes, computed apart from `fm_warp`.
ghost use Rattle.std.specs.Prelude.{◌≤◌, All};
ghost use Rattle.fm_tick.specs.declared.stretch.TheConstants.{MAX_STRETCH};
ghost use Rattle.fm_warp.specs.Deformation.{IsPart};

use crate::same::{same, same_number};
use crate::shapes::stretch;
use fm_tick::MAX_TICK;
use fm_warp::{Cursor, MAX_PART_TICKS, Part, Query, Side, Warp, WarpFault, map_all};
use std::alloc::AllocError;
use std::process::Abort;
use std::test::*;

fn slope(ticks: u32, from: u32, to: u32) -> Part
    requires ticks { (1 ≤ ticks) × (ticks ≤ MAX_PART_TICKS) }
    requires from { (1 ≤ from) × (from ≤ MAX_STRETCH) }
    requires to { (1 ≤ to) × (to ≤ MAX_STRETCH) }
    ensures { IsPart result }
{
    Part::Slope {
        length: ticks,
        from: stretch(from),
        to: stretch(to),
    }
}

fn flat(ticks: u32, thousandths: u32) -> Part
    requires ticks { (1 ≤ ticks) × (ticks ≤ MAX_PART_TICKS) }
    requires stretch { (1 ≤ thousandths) × (thousandths ≤ MAX_STRETCH) }
    ensures { IsPart result }
{
    Part::Flat {
        length: ticks,
        stretch: stretch(thousandths),
    }
}

// The deformation of these parts.
fn warp_of<R: Abort + AllocGlobal>(rt: &R, parts: &[Part]) -> Warp
    requires { All IsPart parts.now }
{
    let mut warp = Warp::new(rt.alloc());
    for part in parts {
        assert!(rt; warp.push(*part).is_ok());
    }
    warp
}

// Every kind of part, and breaths and pauses that stand at one position.
fn many_parts<R: Abort + AllocGlobal>(rt: &R) -> Warp {
    warp_of(
        rt,
        &[
            Part::Breath { ticks: 5 },
            flat(3, 500),
            Part::Breath { ticks: 10 },
            Part::Pause { ticks: 20 },
            Part::Breath { ticks: 40 },
            slope(4, 1_000, 2_500),
            Part::Pause { ticks: 80 },
            Part::Breath { ticks: 160 },
            flat(2, 1_500),
            slope(3, 3_000, 333),
            Part::Breath { ticks: 320 },
        ],
    )
}

/// Positions, and where their onsets and their note-offs lie.
const EDGES: &[(u64, u64, u64)] = &[
    (0, 5, 0),
    (1, 5, 5),
    (2, 6, 6),
    (3, 76, 26),
    (4, 77, 77),
    (6, 80, 80),
    (7, 323, 163),
    (8, 324, 324),
    (9, 326, 326),
    (11, 330, 330),
    (12, 650, 330),
    (13, 651, 651),
];

// Compares where the onset and the note-off of a position lie.
fn is_at_and_till<R: Abort>(rt: &R, warp: &Warp, row: &(u64, u64, u64)) {
    let (x, onset, ending) = *row;
    assert!(rt; x <= MAX_TICK);
    assert!(rt; warp.at(x) == onset && warp.till(x) == ending);
}

#[test]
fn positions_at_and_between_the_edges(rt: HostRuntime) {
    let warp = many_parts(&rt);
    for row in EDGES {
        is_at_and_till(&rt, &warp, row);
    }
}

#[test]
fn one_cursor_maps_onsets_and_note_offs(rt: HostRuntime) {
    let warp = many_parts(&rt);
    let mut cursor = Cursor::new();
    same_number(&rt, cursor.at(&warp, 3), 76);
    same_number(&rt, cursor.at(&warp, 7), 323);
    same_number(&rt, cursor.till(&warp, 3), 26);
    same_number(&rt, cursor.deform(Side::Ending, &warp, 7), 163);
}

#[test]
fn a_list_of_positions_is_mapped_in_place(rt: HostRuntime) {
    let warp = many_parts(&rt);
    let mut queries = [
        Query {
            side: Side::Onset,
            tick: 3,
        },
        Query {
            side: Side::Ending,
            tick: 0,
        },
        Query {
            side: Side::Onset,
            tick: 12,
        },
        Query {
            side: Side::Ending,
            tick: 3,
        },
    ];
    map_all(&warp, &mut queries);
    let ticks = queries.map(|query| query.tick);
    same(&rt, &ticks, &[76, 0, 650, 26]);
}

// Compares the text of a fault.
fn is_told<R: Abort + AllocGlobal>(rt: &R, fault: WarpFault, want: &str) -> Result<(), AllocError> {
    let text = format!(in rt.alloc(); "{fault}")?;
    same(rt, &text.as_str(), &want);
    Ok(())
}

#[test]
fn faults_have_a_text(rt: HostRuntime) -> Result<(), Fail> {
    is_told(
        &rt,
        WarpFault::TooManyParts,
        "a deformation has at most 256 parts",
    )?;
    Ok(is_told(&rt, WarpFault::Memory, "out of memory")?)
}
