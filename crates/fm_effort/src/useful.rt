//! How many workers are worth their cost.
ghost use Rattle.std.specs.Prelude.{◌≡◌, ◌*◌, ◌/◌, ◌<◌, ◌≤◌, if◌then◌else◌, length, max, nat_le};
ghost use Rattle.fm_effort.specs.Effort.{IsCheap, IsFew, busy, is_small, is_too_many, workers_of};

use crate::load::{Load, load_of};
use fm_program::Plan;

/// A plan of fewer events is over before the cost of workers counts.
const MANY_EVENTS: u64 = 65_536;

/// A plan that is sure of fewer events than this, and takes little time, takes no worker.
const FEW_EVENTS: u64 = 4;

/// Fewer nanoseconds than this are little time: a worker takes longer to begin.
const LITTLE_WORK: u64 = 10_000;

/// How many processes free threads may have for each event of an outbox's room. With the usual
/// room this is as many as a score may have.
const MOST_FOR_AN_EVENT: u64 = 512;

/// Workers are worth nothing where an event takes fewer nanoseconds than this to compute.
const LEAST_FOR_AN_EVENT: u64 = 100;

/// Each time so many nanoseconds that an event takes to compute keep one more worker busy.
const SHARE_OF_A_WORKER: u64 = 300;

/// How many of at most so many workers are worth their cost for a plan, with outboxes of this room,
/// in events. It is none where nearly all of the work is that of the conductor, who writes, where
/// free threads have too little room for the processes, and for few events. It is all of them where
/// no estimate is made: for plans that are not sure of many events, and for long programs.
pub fn useful_workers(plan: &Plan, room: u32, most: u32) -> u32
    ensures value { result ≡ workers_of plan.now room most }
    ensures most { result ≤ most }
    ensures crowded { MOST_FOR_AN_EVENT * room < length plan.now.programs → result ≡ 0 }
    ensures few { IsFew plan.now.programs → result ≡ 0 }
    ensures cheap { IsCheap plan.now.programs → result ≡ 0 }
{
    if is_crowded(plan.processes(), room) {
        return 0;
    }
    match load_of(plan) {
        Some(load) => workers_for(load, most),
        None => most,
    }
}

// How many of at most so many workers are worth their cost for such a load.
fn workers_for(load: Load, most: u32) -> u32
    ensures value { result ≡ if is_small (record { work = load.work; events = load.events }) then 0
        else if nat_le MANY_EVENTS load.events then busy (load.work / max load.events 1) most
        else most }
    ensures most { result ≤ most }
{
    if load.events < FEW_EVENTS && load.work < LITTLE_WORK {
        0
    } else if load.events < MANY_EVENTS {
        most
    } else {
        busy_workers(load, most)
    }
}

// Whether so many processes have too little room for free threads. Where more events of a tick are
// to come than an outbox holds, their conductor goes over all processes for each one that ends the
// tick; one thread goes over them once.
fn is_crowded(processes: u32, room: u32) -> bool
    ensures { result ≡ is_too_many processes room }
{
    u64::from(room) * MOST_FOR_AN_EVENT < u64::from(processes)
}

// How many of at most so many workers such a load keeps busy.
fn busy_workers(load: Load, most: u32) -> u32
    ensures value { result ≡ busy (load.work / max load.events 1) most }
    ensures most { result ≤ most }
{
    let share = load.work / load.events.max(1);
    if share < LEAST_FOR_AN_EVENT {
        return 0;
    }
    let busy = share / SHARE_OF_A_WORKER + 1;
    if busy < u64::from(most) {
        busy as u32
    } else {
        most
    }
}
