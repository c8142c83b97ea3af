//! The calls of a board that are steps of the core, made by a recorder. Each does what the board's
//! call does, whatever becomes of the tape.
ghost use Rattle.std.specs.Prelude.{◌≡◌, ◌<◌, ℕ, length, None, Some, IfSome, true};
ghost use Rattle.fm_core.specs.Floors.{floor_of};
ghost use Rattle.fm_core.specs.Sweep.{least};
ghost use Rattle.fm_core.specs.Tags.{is_claimable};
ghost use Rattle.fm_core.specs.Taking.{due_of};
ghost use Rattle.fm_core.specs.declared.due.Due.TheVariants.{Nothing};
ghost use Rattle.fm_core.specs.declared.limits.TheConstants.{MAX_SEATS};
ghost use Rattle.fm_core.specs.declared.step.Step.TheVariants as step;
ghost use Rattle.fm_record.specs.StepBytes.{HasFields};
ghost use Rattle.fm_strand.specs.Strand.{clock_of};
ghost use Rattle.fm_board.specs.Answers.{Claims, Gave, Looks};
ghost use Rattle.fm_board.specs.Calls.{MayComeBack, MayRecord, Releases};
ghost use Rattle.fm_board.specs.Knowing.{Knows};
ghost use Rattle.fm_board.specs.Plays.{MayRelease};
ghost use Rattle.fm_board.specs.Runs.{Extends};
ghost use Rattle.fm_board.specs.Seats.{IsOurs, making};
ghost use Rattle.fm_board.specs.Starting.{Starts};
ghost use Rattle.fm_board.specs.View.{InTurn, giving, noted, processes, published, released};
ghost use Rattle.fm_calls.specs.Works.{IsWorkOf};
ghost use Rattle.fm_taping.specs.Keeping.{Keeps, KeepsLook, claim_step, look_step, pace_step, start_step};
ghost use Rattle.fm_taping.specs.Keeping as words;

use crate::recorder::Recorder;
use fm_board::{Berth, Board, BoardSeat, Claim, Latest, Seen, Started};
use fm_buffer::Gather;
use fm_calls::Work;
use fm_core::{Floor, Step, Tag};
use fm_record::Tape;

impl Recorder {
    /// A look. Of seat 0 it is kept where it changes what the core keeps; of a worker it never is.
    #[tactic(auto, using(crate::proofs::Tapes::small_process))]
    pub fn look(&mut self, board: &Board, seat: &mut BoardSeat, process: u32) -> Seen
        requires ours { IsOurs board.now.table.shared.table_id board.now.about seat.old }
        requires turn { InTurn seat.old.mind.view process }
        ensures found { Looks seat.old process result seat.new }
        ensures kept { KeepsLook process result.tag seat.old.mind.log.idle
            seat.old.mind.view seat.new.mind.view self.old.tape self.new.tape }
    {
        let number = seat.number();
        let before = seat.latest();
        let seen = board.look(seat, process);
        let step = step_of_look(number, &before, &seat.latest(), process, seen.tag);
        keep(&mut self.tape, step);
        seen
    }

    /// A pace. It is kept where it finds another floor than the seat paced before.
    pub fn pace(&mut self, board: &Board, seat: &mut BoardSeat) -> Floor
        requires ours { IsOurs board.now.table.shared.table_id board.now.about seat.old }
        ensures paced { seat.new ≡ making seat.old (step.Pace seat.old.mind.view.number)
            (record seat.old.mind.view { paced = result }) seat.new.mind.log.seen }
        ensures extends { Extends seat.old.mind.view.number seat.old.mind.log seat.new.mind.log }
        ensures own { seat.old.mind.view.number ≡ 0 → result ≡ seat.old.mind.view.published }
        ensures kept { Keeps self.old.tape
            (pace_step seat.old.mind.view.number seat.old.mind.view.paced result)
            self.new.tape }
    {
        let number = seat.number();
        let before = seat.paced();
        let floor = board.pace(seat);
        let step = step_of_pace(number, before, floor);
        keep(&mut self.tape, step);
        floor
    }

    /// A claim. It is kept where it takes the process.
    #[tactic(auto, using(crate::proofs::Tapes::small_process))]
    pub fn claim(
        &mut self,
        board: &Board,
        seat: &mut BoardSeat,
        process: u32,
        expected: &Seen,
    ) -> Claim
        requires ours { IsOurs board.now.table.shared.table_id board.now.about seat.old }
        requires there { process < processes seat.old.mind.view }
        requires idle { seat.old.mind.view.holds ≡ None }
        requires tag { is_claimable seat.old.mind.view.number expected.now.tag ≡ true }
        ensures claims { Claims board.now.about seat.old process expected.now result seat.new }
        ensures kept { Keeps self.old.tape
            (claim_step seat.old.mind.view.number process result) self.new.tape }
    {
        let number = seat.number();
        let claim = board.claim(seat, process, expected);
        let step = step_of_claim(number, process, &claim);
        keep(&mut self.tape, step);
        claim
    }

    /// A start. It is kept where it takes the process.
    #[tactic(auto, using(crate::proofs::Tapes::small_process))]
    pub fn start(&mut self, board: &Board, seat: &mut BoardSeat, process: u32) -> Started
        requires ours { IsOurs board.now.table.shared.table_id board.now.about seat.old }
        requires there { process < processes seat.old.mind.view }
        requires idle { seat.old.mind.view.holds ≡ None }
        ensures starts { Starts board.now.about seat.old process result seat.new }
        ensures kept { Keeps self.old.tape
            (start_step seat.old.mind.view.number process result) self.new.tape }
    {
        let number = seat.number();
        let started = board.start(seat, process);
        let step = step_of_start(number, process, &started);
        keep(&mut self.tape, step);
        started
    }

    /// A record, which is always kept.
    #[tactic(auto, using(crate::proofs::Tapes::small_recorded))]
    pub fn record(&mut self, board: &Board, seat: &mut BoardSeat, berth: &Berth)
        requires ours { IsOurs board.now.table.shared.table_id board.now.about seat.old }
        requires may { MayRecord board.now.about seat.old.mind.view
            berth.now.process berth.now.strand }
        ensures seat { seat.new ≡ making seat.old
            (step.Record seat.old.mind.view.number berth.now.process) (noted seat.old.mind.view)
            seat.new.mind.log.seen }
        ensures extends { Extends seat.old.mind.view.number seat.old.mind.log seat.new.mind.log }
        ensures kept { Keeps self.old.tape
            (Some (step.Record seat.old.mind.view.number berth.now.process)) self.new.tape }
    {
        let step = Step::Record {
            seat: seat.number(),
            process: berth.process,
        };
        board.record(seat, berth);
        keep(&mut self.tape, Some(step));
    }

    /// A give, which is always kept: just the step that the seat makes.
    pub fn give(&mut self, board: &Board, seat: &mut BoardSeat, berth: Berth, work: Work)
        requires ours { IsOurs board.now.table.shared.table_id board.now.about seat.old }
        requires may { MayComeBack board.now.about seat.old.mind.view
            berth.process berth.strand berth.outbox }
        requires told { IsWorkOf seat.old.mind.view (length berth.outbox.events) work }
        ensures gave { Gave board.now.about seat.old berth seat.new }
        ensures knows { Knows seat.old.mind seat.new.mind }
        ensures extends { Extends seat.old.mind.view.number seat.old.mind.log seat.new.mind.log }
        ensures kept { Keeps self.old.tape
            (Some (giving seat.old.mind.view berth.process (length berth.outbox.events)
            (clock_of board.now.about.plan berth.strand))) self.new.tape }
    {
        let number = seat.number();
        let clock = berth.strand.clock();
        let step = step_of_give(number, berth.process, clock, work);
        board.give(seat, berth);
        keep(&mut self.tape, Some(step));
    }

    /// A publish, which is always kept.
    pub fn publish(&mut self, board: &Board, seat: &mut BoardSeat, floor: Floor)
        requires ours { IsOurs board.now.table.shared.table_id board.now.about seat.old }
        requires conductor { seat.old.mind.view.number ≡ 0 }
        requires swept { length seat.old.mind.view.sweep ≡ processes seat.old.mind.view }
        requires settled { seat.old.mind.view.due ≡ Nothing }
        requires floor { floor ≡ floor_of (least seat.old.mind.view.sweep) }
        ensures seat { seat.new ≡ making seat.old step.Publish
            (published seat.old.mind.view floor (due_of (least seat.old.mind.view.sweep)))
            seat.new.mind.log.seen }
        ensures extends { Extends seat.old.mind.view.number seat.old.mind.log seat.new.mind.log }
        ensures kept { Keeps self.old.tape (Some step.Publish) self.new.tape }
    {
        board.publish(seat, floor);
        keep(&mut self.tape, Some(Step::Publish));
    }

    /// A release, which is always kept, with how many events it settles.
    pub fn release(&mut self, board: &Board, seat: &mut BoardSeat, gather: &mut Gather)
        requires ours { IsOurs board.now.table.shared.table_id board.now.about seat.old }
        requires may { MayRelease seat.old.mind.view }
        requires taken { gather.old.events ≡ seat.old.mind.view.gathered }
        ensures seat { seat.new ≡ making seat.old (step.Release (length gather.new.events))
            (released seat.old.mind.view (length gather.new.events)) seat.old.mind.log.seen }
        ensures gather { Releases seat.old.mind.view gather.new.events }
        ensures many { length gather.new.events ≡ length gather.old.events }
        ensures capacity { gather.new.capacity ≡ gather.old.capacity }
        ensures kept { Keeps self.old.tape (Some (step.Release (length gather.new.events)))
            self.new.tape }
    {
        board.release(seat, gather);
        let count = gather.events().len() as u32;
        keep(&mut self.tape, Some(Step::Release { count }));
    }
}

// Puts a step on a tape, if there is one.
fn keep(tape: &mut Tape, step: Option<Step>)
    requires { IfSome step HasFields }
    ensures { Keeps tape.old step tape.new }
{
    if let Some(step) = step {
        match tape.push(&step) {
            Ok(()) => {}
            Err(_) => {}
        }
    }
}

// The step of a look that found this tag, from what its seat found last before it and with it.
fn step_of_look(number: u32, before: &Latest, now: &Latest, process: u32, tag: Tag) -> Option<Step>
    requires { process < 65536 }
    ensures step { result ≡ look_step number before.now now.now process tag }
    ensures fits { IfSome result HasFields }
{
    if number == 0 && is_news(before, now, tag) {
        Some(Step::Look { seat: 0, process })
    } else {
        None
    }
}

// Whether a look of seat 0 that found this tag changes what the core keeps.
fn is_news(before: &Latest, now: &Latest, tag: Tag) -> bool
    ensures { result ≡ words.is_news before.now now.now tag }
{
    before.looks != now.looks
        || before.last.clock != now.last.clock
        || before.last.ended != now.last.ended
        || tag.has_nothing() && !before.idle
}

// The step of a pace that found these floors, one after the other.
fn step_of_pace(seat: u32, before: Floor, floor: Floor) -> Option<Step>
    requires { seat < MAX_SEATS }
    ensures step { result ≡ pace_step seat before floor }
    ensures fits { IfSome result HasFields }
{
    if before.is_same(floor) {
        None
    } else {
        Some(Step::Pace { seat })
    }
}

// The step of a claim.
fn step_of_claim(seat: u32, process: u32, claim: &Claim) -> Option<Step>
    requires seat { seat < MAX_SEATS }
    requires process { process < 65536 }
    ensures step { result ≡ claim_step seat process claim.now }
    ensures fits { IfSome result HasFields }
{
    match claim {
        Claim::Held(_) => Some(Step::Claim { seat, process }),
        Claim::Busy { .. } => None,
    }
}

// The step of a start.
fn step_of_start(seat: u32, process: u32, started: &Started) -> Option<Step>
    requires seat { seat < MAX_SEATS }
    requires process { process < 65536 }
    ensures step { result ≡ start_step seat process started.now }
    ensures fits { IfSome result HasFields }
{
    match started {
        Started::Held(_) => Some(Step::Start { seat, process }),
        Started::NotYet { .. } | Started::Busy { .. } => None,
    }
}

// The step of a give.
fn step_of_give(seat: u32, process: u32, clock: u64, work: Work) -> Step
    requires seat { seat < MAX_SEATS }
    requires process { process < 65536 }
    requires clock { clock < 281474976710656 }
    ensures step { result ≡ step.Give seat process work.taken work.computed clock work.ended }
    ensures fits { HasFields result }
{
    Step::Give {
        seat,
        process,
        taken: u32::from(work.taken),
        computed: u32::from(work.computed),
        clock,
        ended: work.ended,
    }
}
