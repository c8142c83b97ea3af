//! One quantum of each process, on one thread or on several.
ghost use Rattle.std.specs.Prelude.{◌≡◌, ◌+◌, ◌*◌, ◌<◌, ◌≤◌, true, false, length};
ghost use Rattle.std.specs.Thread.{IsSync};
ghost use Rattle.fm_round.specs.Chain.{Cuts, IsChain, IsPart, link};
ghost use Rattle.fm_round.specs.Hands.{MayRun};
ghost use Rattle.fm_round.specs.Lanes.{AreLanes, NoneRuns, RunsAll, RunsEach, SomeRuns};

use crate::lane::{Lane, is_live, run_lane};
use crate::limits::MAX_WORKERS;
use fm_edge::{Gate, OpenGate};
use fm_line::MAX_PROCESSES;
use fm_strand::Plan;
use std::thread::{Threads, join_mut};

/// What all threads of a round share: the plan, the limit of each quantum, a tick, and the chain of
/// the processes that may have something to do.
#[derive(Drop)]
pub struct Round<'a> {
    pub plan: &'a Plan,
    pub limit: u64,
    pub next: &'a [u32],
}

/// A part of the chain: that of the processes from `first` on, which it enters at `head`. So many
/// workers run it, from this actor on.
#[derive(Clone, Copy, Drop)]
pub struct Chain {
    pub head: u32,
    pub first: u32,
    pub actor: u32,
    pub workers: u32,
}

/// One quantum of each process up to the limit, on the caller's thread. Only those in the chain are
/// gone through.
pub fn run_alone(round: &Round, lanes: &mut [Lane])
    requires { MayRun round.now.plan.now round.now.next.now lanes.old }
    ensures { RunsAll round.now.plan.now round.now.limit lanes.old lanes.new }
{
    let whole = Chain {
        head: 0,
        first: 0,
        actor: 0,
        workers: 1,
    };
    run_chunk(&OpenGate, round, whole, lanes);
}

/// The same in exactly as many chunks as there are workers, each with a thread of its own where
/// one can be made.
pub fn run_shared<R: Threads + Sync, G: Gate + Sync>(
    rt: &R,
    gate: &G,
    workers: u32,
    round: &Round,
    lanes: &mut [Lane],
)
    requires workers { (0 < workers) × (workers ≤ MAX_WORKERS) }
    requires ready { MayRun round.now.plan.now round.now.next.now lanes.old }
    ensures { RunsAll round.now.plan.now round.now.limit lanes.old lanes.new }
{
    let whole = Chain {
        head: 0,
        first: 0,
        actor: 0,
        workers,
    };
    share(rt, gate, round, whole, lanes);
}

// One quantum of each of the processes of this part.
fn run_chunk<G: Gate>(gate: &G, round: &Round, chain: Chain, lanes: &mut [Lane])
    requires lanes { AreLanes round.now.plan.now chain.first lanes.old }
    requires chain { IsPart round.now.next.now chain.first chain.head lanes.old }
    ensures each { RunsEach round.now.plan.now chain.first round.now.limit lanes.old lanes.new }
    ensures len { length lanes.new ≡ length lanes.old }
{
    let end = chain.first + lanes.len() as u32;
    let mut at = chain.head;
    while at < end {
        run_lane(
            gate,
            chain.actor,
            round.plan,
            at,
            round.limit,
            &mut lanes[(at - chain.first) as usize],
        );
        at = round.next[at as usize];
    }
}

// One quantum of each of the processes of this part, in exactly as many chunks as it has workers,
// which have about as many numbers of the chain. The number of a chunk is the actor at the gate.
#[cycle(shares)]
fn share<R: Threads + Sync, G: Gate + Sync>(
    rt: &R,
    gate: &G,
    round: &Round,
    chain: Chain,
    lanes: &mut [Lane],
)
    requires workers { (0 < chain.workers) × (chain.actor + chain.workers ≤ MAX_WORKERS) }
    requires lanes { AreLanes round.now.plan.now chain.first lanes.old }
    requires chain { IsPart round.now.next.now chain.first chain.head lanes.old }
    ensures each { RunsEach round.now.plan.now chain.first round.now.limit lanes.old lanes.new }
    ensures len { length lanes.new ≡ length lanes.old }
{
    if chain.workers == 1 {
        run_chunk(gate, round, chain, lanes);
        return;
    }
    let low = chain.workers / 2;
    let end = chain.first + lanes.len() as u32;
    let mid = middle(round.next, chain.head, end, low, chain.workers);
    let (a, b) = lanes.split_at_mut((mid - chain.first) as usize);
    let front = Chain {
        head: chain.head,
        first: chain.first,
        actor: chain.actor,
        workers: low,
    };
    let back = Chain {
        head: mid,
        first: mid,
        actor: chain.actor + low,
        workers: chain.workers - low,
    };
    share_both(rt, gate, round, (front, back), a, b);
}

// Where the chain is cut so that so many of the workers have their share of it.
fn middle(next: &[u32], head: u32, end: u32, low: u32, workers: u32) -> u32
    requires chain { IsChain next.now }
    requires end { (end ≤ length next.now) × (end ≤ MAX_PROCESSES) }
    requires head { head < end → 0 < link next.now head }
    requires workers { (low < workers) × (workers ≤ MAX_WORKERS) }
    ensures { Cuts next.now head end result }
{
    let all = count_from(next, head, end);
    let share = part(all, low, workers);
    let mut at = head;
    for _passed in 0..share {
        if at < end {
            at = next[at as usize];
        }
    }
    at.min(end)
}

// How many numbers the chain has from `head` on below `end`.
fn count_from(next: &[u32], head: u32, end: u32) -> usize
    requires chain { IsChain next.now }
    requires end { end ≤ length next.now }
    requires head { head < end → 0 < link next.now head }
    ensures { result ≤ end }
{
    let mut count = 0;
    let mut at = head;
    while at < end {
        count += 1;
        at = next[at as usize];
    }
    count
}

// How many of all numbers so many of the workers have.
fn part(all: usize, low: u32, workers: u32) -> usize
    requires { (low < workers) × (workers ≤ MAX_WORKERS) × (all ≤ MAX_PROCESSES) }
    ensures within { result ≤ all }
    ensures share { (result * workers ≤ all * low) × (all * low < result * workers + workers) }
{
    all * low as usize / workers as usize
}

// Whether one of the processes of a part has started and not ended.
fn has_live(next: &[u32], chain: Chain, lanes: &[Lane]) -> bool
    requires { IsPart next.now chain.first chain.head lanes.now }
    ensures yes { result ≡ true → SomeRuns lanes.now }
    ensures no { result ≡ false → NoneRuns lanes.now }
{
    let end = chain.first + lanes.len() as u32;
    let mut at = chain.head;
    while at < end {
        if is_live(&lanes[(at - chain.first) as usize]) {
            return true;
        }
        at = next[at as usize];
    }
    false
}

// Two parts side by side, or in turn where one of them has nothing to run, so that no thread is
// started for it.
#[cycle(shares)]
fn share_both<R: Threads + Sync, G: Gate + Sync>(
    rt: &R,
    gate: &G,
    round: &Round,
    parts: (Chain, Chain),
    a: &mut [Lane],
    b: &mut [Lane],
)
    requires front_workers { (0 < parts.0.workers)
        × (parts.0.actor + parts.0.workers ≤ MAX_WORKERS) }
    requires back_workers { (0 < parts.1.workers)
        × (parts.1.actor + parts.1.workers ≤ MAX_WORKERS) }
    requires front_lanes { AreLanes round.now.plan.now parts.0.first a.old }
    requires back_lanes { AreLanes round.now.plan.now parts.1.first b.old }
    requires front { IsPart round.now.next.now parts.0.first parts.0.head a.old }
    requires back { IsPart round.now.next.now parts.1.first parts.1.head b.old }
    ensures ran_front { RunsEach round.now.plan.now parts.0.first round.now.limit a.old a.new }
    ensures ran_back { RunsEach round.now.plan.now parts.1.first round.now.limit b.old b.new }
{
    let (one, two) = parts;
    if !has_live(round.next, one, a) || !has_live(round.next, two, b) {
        share(rt, gate, round, one, a);
        share(rt, gate, round, two, b);
        return;
    }
    let mut front = ||
        requires { IsSync R.row × IsSync G.row × (0 < one.workers)
            × (one.actor + one.workers ≤ MAX_WORKERS)
            × AreLanes round.now.plan.now one.first a.now
            × IsPart round.now.next.now one.first one.head a.now }
        ensures { RunsEach round.entry.now.plan.now one.first round.entry.now.limit
            a.entry.now a.exit.now }
    { share(rt, gate, round, one, a) };
    let mut back = ||
        requires { IsSync R.row × IsSync G.row × (0 < two.workers)
            × (two.actor + two.workers ≤ MAX_WORKERS)
            × AreLanes round.now.plan.now two.first b.now
            × IsPart round.now.next.now two.first two.head b.now }
        ensures { RunsEach round.entry.now.plan.now two.first round.entry.now.limit
            b.entry.now b.exit.now }
    { share(rt, gate, round, two, b) };
    join_mut(rt, &mut front, &mut back);
}
