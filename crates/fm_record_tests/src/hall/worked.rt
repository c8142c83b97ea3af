//! A sweep over three processes, step by step. The worked runs are rows of `fm_core`.
ghost use Rattle.std.specs.Prelude.{◌≡◌, ◌+◌, ◌<◌, length, IfOk};
ghost use Rattle.fm_core.specs.State.{desk};

use super::lines;
use crate::same::same;
use fm_core::{Reason, Step};
use fm_hall::{Hall, Taken, are_valid};
use std::process::Abort;
use std::test::*;

// Makes a step that has to be refused for this reason.
fn refuses<R: Abort>(rt: &R, hall: &mut Hall, step: Step, why: Reason)
    ensures { hall.new ≡ hall.old }
{
    assert_eq!(rt; hall.step(&step), Taken::Refused(why));
}

// Seat 0 looks at a process.
fn looks<R: Abort>(rt: &R, hall: &mut Hall, process: u32)
    requires { 0 < length hall.old.state.desks }
    ensures cells { length hall.new.state.cells ≡ length hall.old.state.cells }
    ensures desks { length hall.new.state.desks ≡ length hall.old.state.desks }
    ensures first { process ≡ 0 → length (desk hall.new.state 0).sweep ≡ 1 }
    ensures next { process ≡ length (desk hall.old.state 0).sweep
        → length (desk hall.new.state 0).sweep ≡ process + 1 }
{
    assert_eq!(rt; hall.step(&Step::Look { seat: 0, process }), Taken::Taken);
}

// Seat 0 looks at each process, and the least clock and process have to be these.
fn sweeps<R: Abort>(rt: &R, hall: &mut Hall, least: (u64, u32))
    requires cells { length hall.old.state.cells ≡ 3 }
    requires desks { 0 < length hall.old.state.desks }
    ensures cells { length hall.new.state.cells ≡ length hall.old.state.cells }
    ensures desks { length hall.new.state.desks ≡ length hall.old.state.desks }
{
    looks(rt, hall, 0);
    looks(rt, hall, 1);
    looks(rt, hall, 2);
    same(rt, &hall.least(0), &Some(least));
}

// Two seats, room 1, lead 0, and three processes one after another, of which the last has events
// at 7 and 439.
fn opened<R: Abort + AllocGlobal>(rt: &R) -> Result<Hall, Fail>
    ensures three { IfOk result (λ hall. length hall.state.cells ≡ 3) }
    ensures two { IfOk result (λ hall. length hall.state.desks ≡ 2) }
{
    let made = lines(
        rt.alloc(),
        &[0, 7, 487],
        &[(1, 0), (2, 1)],
        &[(2, 7), (2, 439)],
    )?;
    assert!(rt; are_valid(&made));
    assert!(rt; made.len() == 3);
    Ok(Hall::open(rt.alloc(), made, 2, 1, 0)?)
}

#[test]
fn looks_are_made_from_the_first_process_upwards(rt: HostRuntime) -> Result<(), Fail> {
    let mut hall = opened(&rt)?;
    let last = Step::Look {
        seat: 0,
        process: 2,
    };
    refuses(&rt, &mut hall, last, Reason::OutOfTurn);
    sweeps(&rt, &mut hall, (0, 0));
    Ok(())
}
