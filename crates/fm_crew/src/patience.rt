//! How a conductor waits for a process that another seat holds.
ghost use Rattle.std.specs.Prelude.{◌≡◌, Bool, true, false, IfSome, IsSome};
ghost use Rattle.fm_board.specs.View.{InTurn};
ghost use Rattle.fm_crew.specs.Conduct.{Attends};
ghost use Rattle.fm_crew.specs.Visiting.{Visited};

use crate::conductor::Conductor;
use crate::limits::Pass;
use crate::pass::attend;
use fm_calls::Calls;
use fm_edge::Gate;
use fm_rest::{Bell, Idle};
use std::sync::Wait;

/// What a conductor does while a process is in other hands.
pub(crate) trait Patience {
    /// Whether it waits at all.
    ghost waits: { Self → Bool };

    /// Looks again at a process, until it was visited, and says its clock. None where it does not
    /// wait.
    fn wait_for<B: Calls, G: Gate>(
        &self,
        board: &B,
        gate: &G,
        pass: Pass,
        conductor: &mut Conductor,
        process: u32,
    ) -> Option<u64>
        requires passing { Attends (B.shared board.now) conductor.old pass process }
        requires turn { InTurn conductor.old.seat.mind.view process }
        ensures waited { waits self.now ≡ true → IsSome result }
        ensures visited { IfSome result (Visited (B.shared board.now)
            pass process conductor.old conductor.new) };
}

/// A conductor beside other seats, which yields to them, and rests after a while.
#[derive(Drop)]
pub(crate) struct Patient<'a, R> {
    pub rt: &'a R,
}

impl<R: Wait> Patience for Patient<'_, R> {
    ghost waits = { λ _. true };

    fn wait_for<B: Calls, G: Gate>(
        &self,
        board: &B,
        gate: &G,
        pass: Pass,
        conductor: &mut Conductor,
        process: u32,
    ) -> Option<u64> {
        Some(look_until_visited(self.rt, board, gate, pass, conductor, process))
    }
}

/// A conductor without other seats, which never finds a process in other hands.
#[derive(Drop)]
pub(crate) struct Alone;

impl Patience for Alone {
    ghost waits = { λ _. false };

    fn wait_for<B: Calls, G: Gate>(
        &self,
        _board: &B,
        _gate: &G,
        _pass: Pass,
        _conductor: &mut Conductor,
        _process: u32,
    ) -> Option<u64> {
        None
    }
}

// Looks again at a process that was found in other hands, until it was visited. Nothing else of
// the conductor waits.
fn look_until_visited<R: Wait, B: Calls, G: Gate>(
    rt: &R,
    board: &B,
    gate: &G,
    pass: Pass,
    conductor: &mut Conductor,
    process: u32,
) -> u64
    requires passing { Attends (B.shared board.now) conductor.old pass process }
    requires turn { InTurn conductor.old.seat.mind.view process }
    ensures { Visited (B.shared board.now) pass process conductor.old conductor.new result }
{
    let mut idle = Idle::new(1);
    let bell = Bell::new();
    for _ in rt.forever() {
        idle.stand(rt, &bell);
        if let Some(clock) = attend(board, gate, pass, conductor, process) {
            return clock;
        }
    }
    unreachable!()
}
