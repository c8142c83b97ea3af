//! The calls of a board that its conductor and its workers make.
ghost use Rattle.std.specs.Prelude.{◌≡◌, ◌<◌, ℕ, length, None, true};
ghost use Rattle.fm_core.specs.Floors.{floor_of};
ghost use Rattle.fm_core.specs.Sweep.{least};
ghost use Rattle.fm_core.specs.Tags.{is_claimable};
ghost use Rattle.fm_core.specs.Taking.{due_of};
ghost use Rattle.fm_core.specs.declared.due.Due.TheVariants.{Nothing};
ghost use Rattle.fm_core.specs.declared.step.Step.TheVariants.{Pace, Publish, Record, Release};
ghost use Rattle.fm_board.specs.Answers.{Claims, Gave, Looks};
ghost use Rattle.fm_board.specs.Calls.{MayComeBack, MayRecord, Releases};
ghost use Rattle.fm_board.specs.Knowing.{Knows};
ghost use Rattle.fm_board.specs.Plays.{MayRelease};
ghost use Rattle.fm_board.specs.Runs.{Extends};
ghost use Rattle.fm_board.specs.Seats.{IsOurs, making, seeing};
ghost use Rattle.fm_board.specs.Starting.{Starts};
ghost use Rattle.fm_board.specs.View.{InTurn, noted, processes, published, released};
ghost use Rattle.fm_calls.specs.Shared.{Shared, of_board};
ghost use Rattle.fm_calls.specs.Works.{IsWorkOf};

use fm_board::{Berth, Board, BoardSeat, Claim, Seen, Started};
use fm_buffer::Gather;
use fm_core::Floor;
use fm_strand::Plan;

/// What a seat did with a process that it held.
#[derive(Clone, Copy, Debug, PartialEq, Eq, Drop)]
pub struct Work {
    /// How many of its events were taken.
    pub taken: u8,
    /// How many of its events were computed.
    pub computed: u16,
    /// Whether it is at its end.
    pub ended: bool,
}

impl Work {
    /// What was done with a process that was at its end: so many of its events were taken.
    pub fn of_ended(taken: u8) -> Work
        ensures { result ≡ record { taken = taken; computed = 0; ended = true } }
    {
        Work {
            taken,
            computed: 0,
            ended: true,
        }
    }
}

/// The calls of a board that its conductor and its workers make. Whoever makes the same calls on a
/// board and does more beside them is played on in the same way.
pub trait Calls {
    /// What its seats share: the table of their words, the plan, the room and the lead.
    ghost shared: { Self → Shared };

    /// The plan that is played.
    fn plan(&self) -> &Plan
        ensures { result.now ≡ (shared self.now).about.plan };

    /// How far events may be computed ahead of the floor, in ticks.
    fn lead(&self) -> u64
        ensures { result ≡ (shared self.now).about.lead };

    /// How many events an outbox holds, 1 to 64.
    fn room(&self) -> u32
        ensures { result ≡ (shared self.now).about.room };

    /// One load of a process's word, which the seat's sweep enters.
    fn look(&self, seat: &mut BoardSeat, process: u32) -> Seen
        requires ours { IsOurs (shared self.now).table (shared self.now).about seat.old }
        requires turn { InTurn seat.old.mind.view process }
        ensures { Looks seat.old process result seat.new };

    /// One load of the floor, above which by the lead the seat may compute.
    fn pace(&self, seat: &mut BoardSeat) -> Floor
        requires ours { IsOurs (shared self.now).table (shared self.now).about seat.old }
        ensures paced { seat.new ≡ making seat.old (Pace seat.old.mind.view.number)
            (record seat.old.mind.view { paced = result }) seat.new.mind.log.seen }
        ensures extends { Extends seat.old.mind.view.number seat.old.mind.log seat.new.mind.log }
        ensures own { seat.old.mind.view.number ≡ 0 → result ≡ seat.old.mind.view.published };

    /// Takes a process whose word is as it was seen.
    fn claim(&self, seat: &mut BoardSeat, process: u32, expected: &Seen) -> Claim
        requires ours { IsOurs (shared self.now).table (shared self.now).about seat.old }
        requires there { process < processes seat.old.mind.view }
        requires idle { seat.old.mind.view.holds ≡ None }
        requires tag { is_claimable seat.old.mind.view.number expected.now.tag ≡ true }
        ensures { Claims (shared self.now).about seat.old process expected.now result seat.new };

    /// Starts a process whose predecessors are all at their ends.
    fn start(&self, seat: &mut BoardSeat, process: u32) -> Started
        requires ours { IsOurs (shared self.now).table (shared self.now).about seat.old }
        requires there { process < processes seat.old.mind.view }
        requires idle { seat.old.mind.view.holds ≡ None }
        ensures { Starts (shared self.now).about seat.old process result seat.new };

    /// Records where the process that the seat holds came to its end.
    fn record(&self, seat: &mut BoardSeat, berth: &Berth)
        requires ours { IsOurs (shared self.now).table (shared self.now).about seat.old }
        requires may { MayRecord (shared self.now).about seat.old.mind.view
            berth.now.process berth.now.strand }
        ensures seat { seat.new ≡ making seat.old
            (Record seat.old.mind.view.number berth.now.process) (noted seat.old.mind.view)
            seat.new.mind.log.seen }
        ensures extends { Extends seat.old.mind.view.number seat.old.mind.log seat.new.mind.log };

    /// Gives the process back, with what was computed in it. What the seat did with it is told to
    /// those who keep a record, just as it was.
    fn give(&self, seat: &mut BoardSeat, berth: Berth, work: Work)
        requires ours { IsOurs (shared self.now).table (shared self.now).about seat.old }
        requires may { MayComeBack (shared self.now).about seat.old.mind.view
            berth.process berth.strand berth.outbox }
        requires told { IsWorkOf seat.old.mind.view (length berth.outbox.events) work }
        ensures gave { Gave (shared self.now).about seat.old berth seat.new }
        ensures knows { Knows seat.old.mind seat.new.mind }
        ensures extends { Extends seat.old.mind.view.number seat.old.mind.log seat.new.mind.log };

    /// Makes the least clock of seat 0's sweep the floor, and all up to that pair due.
    fn publish(&self, seat: &mut BoardSeat, floor: Floor)
        requires ours { IsOurs (shared self.now).table (shared self.now).about seat.old }
        requires conductor { seat.old.mind.view.number ≡ 0 }
        requires swept { length seat.old.mind.view.sweep ≡ processes seat.old.mind.view }
        requires settled { seat.old.mind.view.due ≡ Nothing }
        requires floor { floor ≡ floor_of (least seat.old.mind.view.sweep) }
        ensures seat { seat.new ≡ making seat.old Publish
            (published seat.old.mind.view floor (due_of (least seat.old.mind.view.sweep)))
            seat.new.mind.log.seen }
        ensures extends { Extends seat.old.mind.view.number seat.old.mind.log seat.new.mind.log };

    /// Settles what was taken, which is the next part of the piece, and counts it as released.
    fn release(&self, seat: &mut BoardSeat, gather: &mut Gather)
        requires ours { IsOurs (shared self.now).table (shared self.now).about seat.old }
        requires may { MayRelease seat.old.mind.view }
        requires taken { gather.old.events ≡ seat.old.mind.view.gathered }
        ensures seat { seat.new ≡ making seat.old (Release (length gather.new.events))
            (released seat.old.mind.view (length gather.new.events)) seat.old.mind.log.seen }
        ensures gather { Releases seat.old.mind.view gather.new.events }
        ensures many { length gather.new.events ≡ length gather.old.events }
        ensures capacity { gather.new.capacity ≡ gather.old.capacity };

    /// Tells the other seats to stop.
    fn halt(&self, seat: &mut BoardSeat)
        requires ours { IsOurs (shared self.now).table (shared self.now).about seat.old }
        requires conductor { seat.old.mind.view.number ≡ 0 }
        ensures { seat.new ≡ seeing seat.old (record seat.old.mind.view { halted = true }) };

    /// One load of whether to stop.
    fn heed(&self, seat: &mut BoardSeat) -> bool
        requires ours { IsOurs (shared self.now).table (shared self.now).about seat.old }
        ensures { seat.new ≡ seeing seat.old (record seat.old.mind.view { heeded = result }) };
}

impl Calls for Board {
    ghost shared = { λ board. of_board board };

    fn plan(&self) -> &Plan {
        self.plan()
    }

    fn lead(&self) -> u64 {
        self.lead()
    }

    fn room(&self) -> u32 {
        self.room()
    }

    fn look(&self, seat: &mut BoardSeat, process: u32) -> Seen {
        self.look(seat, process)
    }

    fn pace(&self, seat: &mut BoardSeat) -> Floor {
        self.pace(seat)
    }

    fn claim(&self, seat: &mut BoardSeat, process: u32, expected: &Seen) -> Claim {
        self.claim(seat, process, expected)
    }

    fn start(&self, seat: &mut BoardSeat, process: u32) -> Started {
        self.start(seat, process)
    }

    fn record(&self, seat: &mut BoardSeat, berth: &Berth) {
        self.record(seat, berth);
    }

    fn give(&self, seat: &mut BoardSeat, berth: Berth, _work: Work) {
        self.give(seat, berth);
    }

    fn publish(&self, seat: &mut BoardSeat, floor: Floor) {
        self.publish(seat, floor);
    }

    fn release(&self, seat: &mut BoardSeat, gather: &mut Gather) {
        self.release(seat, gather);
    }

    fn halt(&self, seat: &mut BoardSeat) {
        self.halt(seat);
    }

    fn heed(&self, seat: &mut BoardSeat) -> bool {
        self.heed(seat)
    }
}
