//! Outboxes and gathers, with counts and orders that were worked out by hand.
ghost use Rattle.std.specs.Prelude.{◌≡◌, ◌≤◌, [], IfOk};

use crate::same::same;
use fm_buffer::{Gather, Outbox};
use fm_msg::{Event, Msg};
use std::alloc::{AllocError, Global};
use std::process::Abort;
use std::test::*;

fn note_off(time: u64, process: u32, index: u32) -> Event
    ensures { result
        ≡ record { time = time; process = process; index = index; msg = Msg.Off 0 60 } }
{
    Event::new(
        time,
        process,
        index,
        Msg::Off {
            channel: 0,
            key: 60,
        },
    )
}

#[test]
fn one_place_is_full_after_one_event(rt: HostRuntime) -> Result<(), Fail> {
    let mut outbox = Outbox::new(rt.alloc(), 1)?;
    same(&rt, &outbox.is_full(), &false);
    outbox.put(note_off(0, 0, 0));
    same(&rt, &outbox.is_full(), &true);
    same(&rt, &outbox.len(), &1);
    Ok(())
}

#[test]
fn a_gather_of_two_has_two_to_spare(rt: HostRuntime) -> Result<(), Fail> {
    let mut gather = Gather::new(rt.alloc(), 2)?;
    same(&rt, &gather.spare(), &2);
    gather.put(note_off(0, 0, 0));
    same(&rt, &gather.spare(), &1);
    gather.clear();
    same(&rt, &gather.spare(), &2);
    Ok(())
}

/// Keys, how many events are taken up to them, and how many are then on either side.
const KEYS: &[(Option<(u64, u32)>, (u32, u32, usize))] = &[
    (Some((4, 9)), (0, 4, 0)),
    (Some((5, 0)), (0, 4, 0)),
    (Some((5, 1)), (2, 2, 2)),
    (Some((5, 2)), (3, 1, 3)),
    (Some((6, 0)), (4, 0, 4)),
    (None, (4, 0, 4)),
];

// An outbox of four events, three of them at one tick.
fn four(alloc: Global) -> Result<Outbox, AllocError>
    ensures { IfOk result (λ outbox. outbox.room ≡ 4) }
{
    let mut outbox = Outbox::new(alloc, 4)?;
    outbox.put(note_off(5, 1, 0));
    outbox.put(note_off(5, 1, 1));
    outbox.put(note_off(5, 2, 2));
    outbox.put(note_off(6, 0, 3));
    Ok(outbox)
}

// How many events are taken by the key, and how many are then on either side.
fn counts(outbox: &mut Outbox, gather: &mut Gather, key: Option<(u64, u32)>) -> (u32, u32, usize)
    requires empty { gather.old.events ≡ [] }
    requires space { outbox.old.room ≤ gather.old.capacity }
{
    let _waiting = outbox.len();
    let taken = outbox.take_through(key, gather);
    (taken, outbox.len(), gather.events().len())
}

// So many of the four events are taken by the key.
fn takes<R: Abort + AllocGlobal>(
    rt: &R,
    key: Option<(u64, u32)>,
    wanted: (u32, u32, usize),
) -> Result<(), AllocError> {
    let mut outbox = four(rt.alloc())?;
    let mut gather = Gather::new(rt.alloc(), 4)?;
    let found = counts(&mut outbox, &mut gather, key);
    same(rt, &found, &wanted);
    Ok(())
}

#[test]
fn takes_ties_up_to_the_key(rt: HostRuntime) -> Result<(), Fail> {
    for (key, taken) in KEYS {
        takes(&rt, *key, *taken)?;
    }
    Ok(())
}

// Of the events of a gather, which are four, the ticks and the processes.
fn are_merged<R: Abort>(rt: &R, gather: &Gather, wanted: &[(u64, u32); 4]) {
    let found = match gather.events() {
        [a, b, c, d] => Some([
            (a.time(), a.process()),
            (b.time(), b.process()),
            (c.time(), c.process()),
            (d.time(), d.process()),
        ]),
        _ => None,
    };
    same(rt, &found, &Some(*wanted));
}

#[test]
fn two_runs_are_settled_in_the_order_of_the_piece(rt: HostRuntime) -> Result<(), Fail> {
    let mut gather = Gather::new(rt.alloc(), 4)?;
    gather.put(note_off(0, 1, 0));
    gather.put(note_off(3, 1, 1));
    gather.put(note_off(0, 0, 0));
    gather.put(note_off(7, 0, 1));
    gather.settle();
    are_merged(&rt, &gather, &[(0, 0), (0, 1), (3, 1), (7, 0)]);
    Ok(())
}
