//! The numbers of the processes that may have something to do, one behind the other.
ghost use Rattle.std.specs.Prelude.{◌≡◌, ◌<◌, ◌≤◌, length, IfOk};
ghost use Rattle.fm_round.specs.Chain.{AreChained, IsChain, Joins, link};

use crate::lane::{Lane, is_idle};
use std::alloc::{AllocError, Global};

/// The chain of the first one of so many processes.
pub fn first_chain(alloc: Global, processes: u32) -> Result<Vec<u32>, AllocError>
    requires { 0 < processes }
    ensures { IfOk result (λ next. IsChain next.items × (length next.items ≡ processes)) }
{
    let mut next = vec![in alloc; 0; processes as usize]?;
    next[0] = processes;
    Ok(next)
}

/// Puts a process into the chain, which is gone through from an earlier one that is in it.
pub fn join(from: u32, process: u32, next: &mut Vec<u32>)
    requires chain { IsChain next.old.items }
    requires from { (from ≤ process) × (0 < link next.old.items from) }
    requires process { process < length next.old.items }
    ensures { Joins process next.old.items next.new.items }
{
    let mut at = from;
    while next[at as usize] <= process {
        at = next[at as usize];
    }
    if at < process {
        next[process as usize] = next[at as usize];
        next[at as usize] = process;
    }
}

/// Takes those out of the chain that have nothing to do any more, but for the first one.
pub fn leave(next: &mut Vec<u32>, lanes: &[Lane])
    requires { AreChained next.old.items lanes.now }
    ensures { AreChained next.new.items lanes.now }
{
    let mut at = 0;
    while (next[at] as usize) < lanes.len() {
        let after = next[at] as usize;
        if is_idle(&lanes[after]) {
            next[at] = next[after];
            next[after] = 0;
        } else {
            at = after;
        }
    }
}
