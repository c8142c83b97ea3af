//! Starts the processes whose predecessors have ended.
ghost use Rattle.std.specs.Prelude.{◌≡◌, ◌<◌, ◌≤◌, ◌+◌, ℕ, length, true, false, None, IfSome, IfNone};
ghost use Rattle.fm_program.specs.Fit.{PartsFit};
ghost use Rattle.fm_strand.specs.Course.{end_place, start_place};
ghost use Rattle.fm_round.specs.Chain.{link};
ghost use Rattle.fm_round.specs.Lanes.{AllEnded, AreProcesses, IsLaneOf, IsWaiting, lane};
ghost use Rattle.fm_round.specs.Starts.{Begins, Starts, StartsBehind};
ghost use Rattle.fm_round.specs.Watching.{AllAwait, AreThere, AreWatched, ended_at};

use crate::chain::join;
use crate::lane::Lane;
use crate::watch::{Watch, take_follower};
use fm_play::met;
use fm_strand::{Place, Plan, Strand, first};

/// Starts each process that has no predecessor.
pub fn begin_first(plan: &Plan, watch: &mut Watch, lanes: &mut [Lane])
    requires watched { AreWatched plan.now watch.old lanes.old }
    ensures starts { Starts plan.now lanes.old lanes.new }
    ensures watched { AreWatched plan.now watch.new lanes.new }
{
    for process in 0..plan.processes() {
        ask(plan, 0, process, watch, lanes);
    }
}

/// Asks each process that follows one in the chain, if that has ended.
pub fn visit(plan: &Plan, before: u32, watch: &mut Watch, lanes: &mut [Lane])
    requires watched { AreWatched plan.now watch.old lanes.old }
    requires before { before < length lanes.old }
    requires chained { 0 < link watch.old.next.items before }
    requires awaited { AllAwait plan.now watch.old before lanes.old }
    ensures starts { StartsBehind plan.now before lanes.old lanes.new }
    ensures watched { AreWatched plan.now watch.new lanes.new }
    ensures chained { 0 < link watch.new.next.items before }
    ensures awaited { AllAwait plan.now watch.new (before + 1) lanes.new }
{
    if !lanes[before as usize].ended {
        return;
    }
    ask_followers(plan, before, watch, lanes);
}

// Asks each process that follows one that has ended.
fn ask_followers(plan: &Plan, before: u32, watch: &mut Watch, lanes: &mut [Lane])
    requires watched { AreWatched plan.now watch.old lanes.old }
    requires chained { 0 < link watch.old.next.items before }
    requires ended { (lane lanes.old before).ended ≡ true }
    requires awaited { AllAwait plan.now watch.old before lanes.old }
    ensures starts { StartsBehind plan.now before lanes.old lanes.new }
    ensures watched { AreWatched plan.now watch.new lanes.new }
    ensures chained { 0 < link watch.new.next.items before }
    ensures awaited { AllAwait plan.now watch.new (before + 1) lanes.new }
{
    while let Some(process) = take_follower(before, &mut watch.followers) {
        ask(plan, before, process, watch, lanes);
    }
}

// Starts a process if it has not started and all its predecessors have ended. It joins the chain
// behind an earlier one.
fn ask(plan: &Plan, from: u32, process: u32, watch: &mut Watch, lanes: &mut [Lane])
    requires watched { AreWatched plan.now watch.old lanes.old }
    requires process { process < length plan.now.programs }
    requires from { (from ≤ process) × (0 < link watch.old.next.items from) }
    ensures begins { Begins plan.now process lanes.old lanes.new }
    ensures waits { (lane lanes.new process).strand ≡ None
        → IsWaiting plan.now lanes.new process }
    ensures watched { AreWatched plan.now watch.new lanes.new }
    ensures chain { (k : ℕ) → 0 < link watch.old.next.items k → 0 < link watch.new.next.items k }
    ensures lists { watch.new.followers ≡ watch.old.followers }
{
    if begin_if_ready(plan, process, &mut watch.guesses, lanes) {
        join(from, process, &mut watch.next);
    }
}

// Starts a process if it has not started and all its predecessors have ended. Says whether it did.
fn begin_if_ready(plan: &Plan, process: u32, guesses: &mut Vec<usize>, lanes: &mut [Lane]) -> bool
    requires processes { AreProcesses plan.now lanes.old }
    requires process { process < length plan.now.programs }
    requires guesses { length guesses.old.items ≡ length plan.now.programs }
    ensures begins { Begins plan.now process lanes.old lanes.new }
    ensures waits { (lane lanes.new process).strand ≡ None
        → IsWaiting plan.now lanes.new process }
    ensures no { result ≡ false → lanes.new ≡ lanes.old }
    ensures guesses { length guesses.new.items ≡ length guesses.old.items }
{
    if lanes[process as usize].strand.is_some() {
        return false;
    }
    if let Some(found) = awaited(plan, process, guesses[process as usize], lanes) {
        guesses[process as usize] = found;
        return false;
    }
    let place = start_of(plan, process, lanes);
    lanes[process as usize].strand = Some(Strand::begin(plan, process, &place));
    true
}

// A predecessor that has not ended, by its index among the predecessors, or none. It is looked for
// from an index on, and then in front of it.
fn awaited(plan: &Plan, process: u32, guess: usize, lanes: &[Lane]) -> Option<usize>
    requires fits { PartsFit plan.now }
    requires count { length lanes.now ≡ length plan.now.programs }
    requires process { process < length plan.now.programs }
    ensures some { IfSome result (λ i. IsWaiting plan.now lanes.now process) }
    ensures none { IfNone result (AllEnded plan.now lanes.now process) }
{
    let predecessors = plan.predecessors(process);
    let from = predecessors.len().min(guess);
    match first_live(predecessors, from, predecessors.len(), lanes) {
        Some(found) => Some(found),
        None => first_live(predecessors, 0, from, lanes),
    }
}

// The index of the first one of these processes, from an index up to another, that has not ended.
fn first_live(processes: &[u32], from: usize, to: usize, lanes: &[Lane]) -> Option<usize>
    requires range { (from ≤ to) × (to ≤ length processes.now) }
    requires there { AreThere processes.now lanes.now }
    ensures some { IfSome result (λ i. (i < length processes.now)
        × (ended_at processes.now lanes.now i ≡ false)) }
    ensures none { IfNone result ((i : ℕ) → from ≤ i → i < to
        → ended_at processes.now lanes.now i ≡ true) }
{
    for index in from..to {
        if !lanes[processes[index] as usize].ended {
            return Some(index);
        }
    }
    None
}
// Where a process starts whose predecessors have all ended.
fn start_of(plan: &Plan, process: u32, lanes: &[Lane]) -> Place
    requires processes { AreProcesses plan.now lanes.now }
    requires process { process < length plan.now.programs }
    requires ended { AllEnded plan.now lanes.now process }
    ensures { result ≡ start_place plan.now process }
{
    let mut latest = None;
    for before in plan.predecessors(process) {
        let end = end_of(plan, *before, &lanes[*before as usize]);
        latest = Some(met(latest, end));
    }
    match latest {
        Some(place) => place,
        None => first(),
    }
}

// Where a process ended.
fn end_of(plan: &Plan, process: u32, lane: &Lane) -> Place
    requires lane { IsLaneOf plan.now process lane.now }
    requires ended { lane.now.ended ≡ true }
    ensures { result ≡ end_place plan.now process }
{
    match &lane.strand {
        Some(strand) => strand.place(),
        None => first(),
    }
}
