//! How many workers a score is worth.

use crate::ways::plan_of;
use fm_effort::useful_workers;
use std::alloc::Global;
use std::test::Fail;

/// Scores, the room of an outbox in events, and how many of four workers are worth their cost.
const SCORES: &[(&[u8], u32, u32)] = &[
    // Four events get all.
    (
        b"formula 1; par { branch { note c4 1/4; } branch { note e4 1/4; } }",
        32,
        4,
    ),
    // Nobody is worth one note.
    (
        b"formula 1; par { branch { note c4 1/4; } branch { } }",
        32,
        0,
    ),
    // Next to nothing is computed for each event.
    (
        b"formula 1; par { branch { repeat 20000 { note c4 1/16; } } branch { repeat 20000 { note \
          e4 1/16; } } }",
        32,
        0,
    ),
    // Each note goes through eight deformations.
    (
        b"formula 1; shape a = slope 1/1 by 1000 to 1100; warp a { warp a { warp a { warp a { warp \
          a { warp a { warp a { warp a { par { branch { repeat 20000 { note c4 1/16; } } branch { \
          repeat 20000 { note e4 1/16; } } } } } } } } } } }",
        32,
        1,
    ),
    // Registers are set twenty times for each note, in a loop inside the loop.
    (
        b"formula 1; repeat 40000 { repeat 20 { set r0 = r0 + 1; } note c4 1/16; } par { \
          branch { } }",
        32,
        4,
    ),
    // Any number of the rounds may be rests.
    (
        b"formula 1; repeat 40000 { if pick(2) { note c4 1/16; } else { rest 1/16; } } par { \
          branch { } }",
        32,
        4,
    ),
    // The same of a loop whose rounds are computed.
    (
        b"formula 1; repeat 40000 { repeat (pick(2)) max 1 { note c4 1/16; } } par { branch { } }",
        32,
        4,
    ),
    // More than 512 processes for each event of the room.
    (
        b"formula 1; repeat 2 { note c4 1/4; } repeat 1365 { par { branch { } branch { } } }",
        1,
        0,
    ),
    (
        b"formula 1; repeat 2 { note c4 1/4; } repeat 1365 { par { branch { } branch { } } }",
        8,
        4,
    ),
];

// How many of four workers are worth their cost for a score.
fn worth(alloc: Global, text: &[u8], room: u32) -> Result<u32, Fail> {
    let plan = plan_of(alloc, text)?;
    Ok(useful_workers(&plan, room, 4))
}

#[test]
fn scores_are_worth_so_many_workers(rt: HostRuntime) -> Result<(), Fail> {
    let alloc = rt.alloc();
    for (text, room, workers) in SCORES {
        let found = worth(alloc, text, *room)?;
        assert_eq!(rt; found, *workers);
    }
    Ok(())
}
