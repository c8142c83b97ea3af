//! Which processes a round looks at.
ghost use Rattle.std.specs.Prelude.{◌≡◌, ◌<◌, ◌+◌, length, IfOk, OnOk};
ghost use Rattle.fm_program.specs.Fit.{PartsFit};
ghost use Rattle.fm_round.specs.Chain.{link};
ghost use Rattle.fm_round.specs.Watching.{AllLater, AllListed, AreEmpty, IsOpenWatch, Lists, Takes};

use crate::chain::first_chain;
use fm_strand::Plan;
use std::alloc::{AllocError, Global};

/// Which processes may have something to do, and which are asked once one has ended.
#[derive(Drop)]
pub struct Watch {
    /// The number behind each process in the chain of those that may have something to do, or 0.
    pub next: Vec<u32>,
    /// The processes that have to be asked when a process ends, of each.
    pub followers: Vec<Vec<u32>>,
    /// Which predecessor had not ended when a process was asked: where to look first.
    pub guesses: Vec<usize>,
}

/// Takes the memory for all processes of a plan.
pub fn open_watch(alloc: Global, plan: &Plan) -> Result<Watch, AllocError>
    requires { PartsFit plan.now }
    ensures { IfOk result (λ watch. IsOpenWatch plan.now watch) }
{
    let processes = plan.processes();
    let next = first_chain(alloc, processes)?;
    let followers = all_followers(alloc, plan)?;
    let guesses = vec![in alloc; 0; processes as usize]?;
    Ok(Watch {
        next,
        followers,
        guesses,
    })
}

// Of each process, all that have it as a predecessor.
fn all_followers(alloc: Global, plan: &Plan) -> Result<Vec<Vec<u32>>, AllocError>
    requires { PartsFit plan.now }
    ensures size { IfOk result (λ lists. length lists.items ≡ length plan.now.programs) }
    ensures later { IfOk result (λ lists. AllLater plan.now lists.items) }
    ensures listed { IfOk result (λ lists.
        AllListed plan.now (length plan.now.programs) lists.items) }
{
    let mut lists = empty_lists(alloc, plan.processes())?;
    for process in 0..plan.processes() {
        list_process(plan, process, &mut lists)?;
    }
    Ok(lists)
}

// Puts a process into the list of each of its predecessors.
fn list_process(plan: &Plan, process: u32, lists: &mut Vec<Vec<u32>>) -> Result<(), AllocError>
    requires fits { PartsFit plan.now }
    requires process { process < length plan.now.programs }
    requires size { length lists.old.items ≡ length plan.now.programs }
    requires later { AllLater plan.now lists.old.items }
    requires listed { AllListed plan.now process lists.old.items }
    ensures size { OnOk result (length lists.new.items ≡ length lists.old.items) }
    ensures later { OnOk result (AllLater plan.now lists.new.items) }
    ensures listed { OnOk result (AllListed plan.now (process + 1) lists.new.items) }
{
    for before in plan.predecessors(process) {
        list(*before, process, lists)?;
    }
    Ok(())
}

// So many empty lists.
fn empty_lists(alloc: Global, many: u32) -> Result<Vec<Vec<u32>>, AllocError>
    ensures { IfOk result (λ lists. AreEmpty many lists.items) }
{
    let mut lists = Vec::with_capacity(alloc, many as usize)?;
    for _list in 0..many {
        lists.push_reserved(Vec::new(alloc));
    }
    Ok(lists)
}

// Puts a process into the list of one of its predecessors.
fn list(before: u32, process: u32, lists: &mut Vec<Vec<u32>>) -> Result<(), AllocError>
    requires { before < length lists.old.items }
    ensures { OnOk result (Lists before process lists.old.items lists.new.items) }
{
    match lists[before as usize].push(process) {
        Ok(()) => Ok(()),
        Err(_) => Err(AllocError),
    }
}

/// Takes the last process out of the list of one that has ended.
pub fn take_follower(before: u32, lists: &mut Vec<Vec<u32>>) -> Option<u32>
    requires { before < length lists.old.items }
    ensures { Takes before lists.old.items result lists.new.items }
{
    lists[before as usize].pop()
}

/// The number behind a process in the chain, or 0 where it is not in it.
pub fn after(watch: &Watch, process: u32) -> u32
    requires { process < length watch.now.next.items }
    ensures { result ≡ link watch.now.next.items process }
{
    watch.next[process as usize]
}
