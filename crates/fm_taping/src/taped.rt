//! A board whose steps are kept on a tape.
ghost use Rattle.fm_calls.specs.Shared.{of_board};

use crate::recorder::Recorder;
use fm_board::{Berth, Board, BoardSeat, Claim, Seen, Started};
use fm_buffer::Gather;
use fm_calls::{Calls, Work};
use fm_core::Floor;
use fm_strand::Plan;
use std::sync::{Mutex, Wait};

/// A board each of whose steps is taken under the lock of a recorder, and kept on its tape before
/// another seat can take one.
#[derive(Drop)]
pub struct Taped<'a, R> {
    pub rt: &'a R,
    pub board: &'a Board,
    pub recorder: &'a Mutex<Recorder>,
}

impl<R: Wait> Calls for Taped<'_, R> {
    ghost shared = { λ taped. of_board taped.board.now };

    fn plan(&self) -> &Plan {
        self.board.plan()
    }

    fn lead(&self) -> u64 {
        self.board.lead()
    }

    fn room(&self) -> u32 {
        self.board.room()
    }

    fn look(&self, seat: &mut BoardSeat, process: u32) -> Seen {
        let mut recorder = self.recorder.lock(self.rt);
        recorder.look(self.board, seat, process)
    }

    fn pace(&self, seat: &mut BoardSeat) -> Floor {
        let mut recorder = self.recorder.lock(self.rt);
        recorder.pace(self.board, seat)
    }

    fn claim(&self, seat: &mut BoardSeat, process: u32, expected: &Seen) -> Claim {
        let mut recorder = self.recorder.lock(self.rt);
        recorder.claim(self.board, seat, process, expected)
    }

    fn start(&self, seat: &mut BoardSeat, process: u32) -> Started {
        let mut recorder = self.recorder.lock(self.rt);
        recorder.start(self.board, seat, process)
    }

    fn record(&self, seat: &mut BoardSeat, berth: &Berth) {
        let mut recorder = self.recorder.lock(self.rt);
        recorder.record(self.board, seat, berth);
    }

    fn give(&self, seat: &mut BoardSeat, berth: Berth, work: Work) {
        let mut recorder = self.recorder.lock(self.rt);
        recorder.give(self.board, seat, berth, work);
    }

    fn publish(&self, seat: &mut BoardSeat, floor: Floor) {
        let mut recorder = self.recorder.lock(self.rt);
        recorder.publish(self.board, seat, floor);
    }

    fn release(&self, seat: &mut BoardSeat, gather: &mut Gather) {
        let mut recorder = self.recorder.lock(self.rt);
        recorder.release(self.board, seat, gather);
    }

    fn halt(&self, seat: &mut BoardSeat) {
        let _recorder = self.recorder.lock(self.rt);
        self.board.halt(seat);
    }

    fn heed(&self, seat: &mut BoardSeat) -> bool {
        let _recorder = self.recorder.lock(self.rt);
        self.board.heed(seat)
    }
}
