//! The process with operations of all kinds, cut into quanta.
ghost use Rattle.std.specs.Prelude.{◌≡◌, ◌≤◌, [], OnOk};
ghost use Rattle.fm_buffer.specs.declared.outbox.TheConstants.{MAX_ROOM};
ghost use Rattle.fm_strand.specs.Strand.{InCourse};

use super::begun;
use super::rich::{SPOT, plan};
use fm_buffer::Gather;
use fm_msg::Event;
use fm_strand::{Outbox, Plan, Quantum, Strand};
use std::alloc::{AllocError, Global};
use std::process::Abort;
use std::test::Fail;

/// The ticks and the bytes of its events, computed by a program of another language.
const EVENTS: &[(u64, [u8; 3])] = &[
    (15, [0x91, 70, 64]),
    (15, [0x91, 67, 64]),
    (195, [0x81, 70, 64]),
    (195, [0x81, 67, 64]),
    (510, [0xB1, 7, 64]),
    (510, [0x91, 61, 64]),
    (510, [0x91, 67, 64]),
    (840, [0x81, 61, 64]),
    (840, [0x81, 67, 64]),
    (840, [0xB1, 7, 65]),
    (840, [0x91, 67, 64]),
    (840, [0x91, 67, 64]),
    (840, [0x81, 67, 64]),
    (840, [0x81, 67, 64]),
    (960, [0xB1, 7, 66]),
    (960, [0xE1, 127, 63]),
    (970, [0x91, 71, 64]),
    (970, [0x91, 67, 64]),
    (1_090, [0x81, 71, 64]),
    (1_090, [0x81, 67, 64]),
    (1_300, [0xB1, 7, 63]),
    (1_300, [0x91, 61, 64]),
    (1_300, [0x91, 67, 64]),
    (1_540, [0x81, 61, 64]),
    (1_540, [0x81, 67, 64]),
    (1_540, [0xB1, 7, 64]),
    (1_540, [0x91, 62, 64]),
    (1_540, [0x91, 67, 64]),
    (1_540, [0x81, 62, 64]),
    (1_540, [0x81, 67, 64]),
    (1_660, [0xB1, 7, 65]),
    (1_660, [0xE1, 0, 64]),
    (1_670, [0x91, 63, 64]),
    (1_670, [0x91, 67, 64]),
    (1_790, [0x81, 63, 64]),
    (1_790, [0x81, 67, 64]),
    (2_000, [0xB1, 7, 62]),
    (2_000, [0x92, 48, 80]),
    (2_216, [0x82, 48, 64]),
];

/// Quanta: their room, the first limit, and by how many ticks it rises where it stops one.
const QUANTA: &[(u32, u64, u64)] = &[(1, 0, 10), (2, 15, 500), (2, 840, 1_000), (64, 10_000, 0)];

// The first process has these events in quanta of each kind, and ends at this tick.
pub(super) fn has_events<R: Abort + AllocGlobal>(
    rt: &R,
    plan: &Plan,
    rows: &[(u64, [u8; 3])],
    end: u64,
) -> Result<(), AllocError> {
    for quanta in QUANTA {
        has_events_in(rt, plan, quanta, rows, end)?;
    }
    Ok(())
}

// The same in quanta of one kind.
fn has_events_in<R: Abort + AllocGlobal>(
    rt: &R,
    plan: &Plan,
    quanta: &(u32, u64, u64),
    rows: &[(u64, [u8; 3])],
    end: u64,
) -> Result<(), AllocError> {
    let (room, first, lead) = *quanta;
    assert!(rt; 1 <= room && room <= 64);
    let mut strand = begun(plan);
    let mut events = Vec::new(rt.alloc());
    make_quanta(
        rt.alloc(),
        plan,
        &mut strand,
        room,
        first,
        lead,
        &mut events,
    )?;
    assert!(rt; are_expected(events.as_slice(), rows) && strand.clock() == end);
    Ok(())
}

// Appends the events of quanta to the end, each with an empty outbox. Where the limit stops one,
// it rises by the lead, in ticks.
fn make_quanta(
    alloc: Global,
    plan: &Plan,
    strand: &mut Strand,
    room: u32,
    first: u64,
    lead: u64,
    events: &mut Vec<Event>,
) -> Result<(), AllocError>
    requires course { InCourse plan.now strand.old }
    requires room { (1 ≤ room) × (room ≤ MAX_ROOM) }
{
    let mut out = Outbox::new(alloc, room)?;
    let mut gather = Gather::new(alloc, room as usize)?;
    let mut limit = first;
    for _quantum in 0..1_000 {
        let answer = strand.quantum(plan, limit, &mut out);
        take_all(&mut out, &mut gather, events)?;
        match answer {
            Quantum::Ended => return Ok(()),
            Quantum::Limit => limit = limit.saturating_add(lead),
            Quantum::Spent | Quantum::Full => {}
        }
    }
    Ok(())
}

// Appends what waits, and empties the outbox and the gather.
fn take_all(
    out: &mut Outbox,
    gather: &mut Gather,
    events: &mut Vec<Event>,
) -> Result<(), AllocError>
    requires empty { gather.old.events ≡ [] }
    requires space { out.old.room ≤ gather.old.capacity }
    ensures room { out.new.room ≡ out.old.room }
    ensures gather { OnOk result (gather.new ≡ gather.old) }
{
    let _waiting = out.len();
    out.take_through(None, gather);
    for event in gather.events() {
        events.push(*event)?;
    }
    gather.clear();
    Ok(())
}

// Whether these are the events of the rows, numbered in turn.
fn are_expected(events: &[Event], rows: &[(u64, [u8; 3])]) -> bool {
    if events.len() != rows.len() {
        return false;
    }
    for (index, event) in events.iter().enumerate() {
        let (time, bytes) = rows[index];
        if !is_expected(event, index, time, bytes) {
            return false;
        }
    }
    true
}

fn is_expected(event: &Event, index: usize, time: u64, bytes: [u8; 3]) -> bool {
    let mut found = [0; 3];
    event.msg().bytes(&mut found);
    event.process() == 0
        && event.index() as usize == index
        && event.time() == time
        && found == bytes
}

// No clause tells the spots of a plan's expressions.
#[test]
fn a_copy_of_a_plan_has_the_spots_of_its_expressions(rt: HostRuntime) -> Result<(), Fail> {
    let copy = plan(rt.alloc())?.copy(rt.alloc())?;
    let expr = copy.stock().exprs.first();
    let spot = expr.and_then(|expr| expr.spots.first().copied());
    assert!(rt; spot == Some(SPOT));
    Ok(())
}

#[test]
fn events_are_the_same_whatever_the_quanta(rt: HostRuntime) -> Result<(), Fail> {
    Ok(has_events(&rt, &plan(rt.alloc())?, EVENTS, 2_360)?)
}
