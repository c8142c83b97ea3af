//! The board: what seats see on it, take from it and give back to it.
ghost use Rattle.std.specs.Prelude.{◌≡◌, ◌+◌, ◌*◌, ◌<◌, ◌≤◌, ℕ, length, None, true};
ghost use Rattle.std.specs.Prelude.{IsPermutation, IsSorted};
ghost use Rattle.fm_msg.specs.Event.{event_cmp};
ghost use Rattle.fm_core.specs.Floors.{floor_of};
ghost use Rattle.fm_core.specs.Sweep.{least};
ghost use Rattle.fm_core.specs.Tags.{given_tag, is_claimable};
ghost use Rattle.fm_core.specs.Taking.{due_of};
ghost use Rattle.fm_core.specs.declared.due.Due.TheVariants.{Nothing};
ghost use Rattle.fm_board.specs.Calls.{MayComeBack, Releases};
ghost use Rattle.fm_core.specs.declared.step.Step.TheVariants.{Pace, Publish, Release};
ghost use Rattle.fm_board.specs.Seats.{IsOurs, making};
ghost use Rattle.fm_board.specs.Answers.{Claims, Gave, Looks};
ghost use Rattle.fm_board.specs.Knowing.{Knows};
ghost use Rattle.fm_board.specs.Plays.{MayRelease};
ghost use Rattle.fm_board.specs.Runs.{Extends};
ghost use Rattle.fm_board.specs.View.{InTurn, is_over, processes, published, released};
ghost use Rattle.fm_board.specs.Words.{spell};
ghost use Rattle.fm_strand.specs.Strand.{clock_of};

use crate::about::About;
use crate::berth::Berth;
use crate::claim::Claim;
use crate::deposit::Deposit;
use crate::plays::{ClaimPlay, GivePlay, Kept, LookPlay, PacePlay, PublishPlay};
use crate::seat::BoardSeat;
use crate::seen::Seen;
use crate::sweep::enter;
use crate::view::Mind;
use crate::words::{floor_of_word, index_of, seen_of, word_of, word_of_floor};
use atomic_table::Table;
use fm_buffer::Gather;
use fm_core::{Floor, Sight, Tag};
use fm_strand::{Plan, Stall};
use std::alloc::Global;
use std::marker::{Send, Sync};

/// A table of words and slots that seats share: the floor, a word and a slot for each process,
/// where each ended, and whether to stop.
#[derive(Drop)]
pub struct Board {
    pub about: About,
    pub table: Table<Option<Deposit>, Mind, About, Kept, Global>,
    ghost same: { (table.shared.key ≡ about)
        × (table.shared.table_id.words ≡ 2 + 10 * length about.plan.programs)
        × (table.shared.table_id.slots ≡ length about.plan.programs) },
}

impl Board {
    /// The plan that is played.
    pub fn plan(&self) -> &Plan
        ensures { result.now ≡ self.now.about.plan }
    {
        &self.about.plan
    }

    /// The lead: how far events may be computed ahead of the floor, in ticks.
    pub fn lead(&self) -> u64
        ensures { result ≡ self.now.about.lead }
    {
        self.about.lead
    }

    /// The room of an outbox, in events.
    pub fn room(&self) -> u32
        ensures { result ≡ self.now.about.room }
    {
        self.about.room
    }

    /// One load of a process's word, which the seat's sweep enters: process 0 begins it anew, the
    /// next one extends it, the last one in it leaves it.
    pub fn look(&self, seat: &mut BoardSeat, process: u32) -> Seen
        requires ours { IsOurs self.now.table.shared.table_id self.now.about seat.old }
        requires turn { InTurn seat.old.mind.view process }
        ensures { Looks seat.old process result seat.new }
    {
        let found = seat
            .token
            .load::<LookPlay>(&self.table.shared, index_of(process));
        let seen = seen_of(found);
        let predecessors = self.about.plan.predecessors(process);
        let look = Sight::of(seen.tag, seen.clock, seat.looks.as_slice(), predecessors);
        enter(&mut seat.looks, process, look);
        seat.idle = seen.tag.has_nothing();
        seen
    }

    /// One load of the floor, above which by the lead the seat may compute.
    pub fn pace(&self, seat: &mut BoardSeat) -> Floor
        requires ours { IsOurs self.now.table.shared.table_id self.now.about seat.old }
        ensures paced { seat.new ≡ making seat.old (Pace seat.old.mind.view.number)
            (record seat.old.mind.view { paced = result }) seat.new.mind.log.seen }
        ensures extends { Extends seat.old.mind.view.number seat.old.mind.log seat.new.mind.log }
        ensures own { seat.old.mind.view.number ≡ 0 → result ≡ seat.old.mind.view.published }
    {
        let found = seat.token.load::<PacePlay>(&self.table.shared, 0);
        let floor = floor_of_word(found);
        seat.paced = floor;
        floor
    }

    /// Takes a process whose word is as it was seen: one compare and exchange. `Busy` exactly where
    /// the word found is another. Seat 0 alone may take a process that is full or ended.
    pub fn claim(&self, seat: &mut BoardSeat, process: u32, expected: &Seen) -> Claim
        requires ours { IsOurs self.now.table.shared.table_id self.now.about seat.old }
        requires there { process < processes seat.old.mind.view }
        requires idle { seat.old.mind.view.holds ≡ None }
        requires tag { is_claimable seat.old.mind.view.number expected.now.tag ≡ true }
        ensures { Claims self.now.about seat.old process expected.now result seat.new }
    {
        let old = word_of(expected.tag, expected.clock, expected.seat);
        let new = word_of(expected.tag.claimed(), expected.clock, seat.number);
        let shared = &self.table.shared;
        let found = seat
            .token
            .compare_exchange::<ClaimPlay>(shared, index_of(process), old, new);
        if found != old {
            return Claim::Busy {
                found: seen_of(found),
            };
        }
        seat.over = expected.tag.is_ended();
        match seat.token.exchange(shared, process as usize, None) {
            Some(room) => {
                let Deposit { strand, outbox } = room;
                match strand.runner() {
                    Some(strand) => Claim::Held(Berth {
                        process,
                        strand,
                        outbox,
                    }),
                    None => unreachable!(),
                }
            }
            None => unreachable!(),
        }
    }

    /// Gives the process back, with what was computed in it: first into its slot, then by one store
    /// of its word. Events of its outbox that are due, and not taken yet, seat 0 has to have taken.
    pub fn give(&self, seat: &mut BoardSeat, berth: Berth)
        requires ours { IsOurs self.now.table.shared.table_id self.now.about seat.old }
        requires may { MayComeBack self.now.about seat.old.mind.view
            berth.process berth.strand berth.outbox }
        ensures gave { Gave self.now.about seat.old berth seat.new }
        ensures knows { Knows seat.old.mind seat.new.mind }
        ensures extends { Extends seat.old.mind.view.number seat.old.mind.log seat.new.mind.log }
    {
        let new = self.word_back(seat, &berth);
        let Berth {
            process,
            strand,
            outbox,
        } = berth;
        let shared = &self.table.shared;
        let room = Some(Deposit {
            strand: Stall::of(strand),
            outbox,
        });
        match seat.token.exchange(shared, process as usize, room) {
            None => {}
            Some(_) => unreachable!(),
        }
        seat.token.store::<GivePlay>(shared, index_of(process), new);
    }

    // The word of a process that comes back.
    fn word_back(&self, seat: &BoardSeat, berth: &Berth) -> u64
        requires { MayComeBack self.now.about seat.now.mind.view
            berth.now.process berth.now.strand berth.now.outbox }
        ensures word { result ≡ spell (given_tag self.now.about.room
            (is_over seat.now.mind.view.holds) (length berth.now.outbox.events))
            (clock_of self.now.about.plan berth.now.strand) 0 }
        ensures fits { length berth.now.outbox.events ≤ berth.now.outbox.room }
    {
        let clock = berth.strand.clock();
        let tag = Tag::given(self.about.room, seat.over, berth.outbox.len());
        word_of(tag, clock, 0)
    }

    /// Makes the least clock of seat 0's sweep the floor, and all up to that pair due: one store.
    pub fn publish(&self, seat: &mut BoardSeat, floor: Floor)
        requires ours { IsOurs self.now.table.shared.table_id self.now.about seat.old }
        requires conductor { seat.old.mind.view.number ≡ 0 }
        requires swept { length seat.old.mind.view.sweep ≡ processes seat.old.mind.view }
        requires settled { seat.old.mind.view.due ≡ Nothing }
        requires floor { floor ≡ floor_of (least seat.old.mind.view.sweep) }
        ensures seat { seat.new ≡ making seat.old Publish
            (published seat.old.mind.view floor (due_of (least seat.old.mind.view.sweep)))
            seat.new.mind.log.seen }
        ensures extends { Extends seat.old.mind.view.number seat.old.mind.log seat.new.mind.log }
    {
        let new = word_of_floor(floor);
        seat.token.store::<PublishPlay>(&self.table.shared, 0, new);
        seat.looks.clear();
    }

    /// Settles what was taken, which is the next part of the piece, and counts it as released. It
    /// makes no step on a word; the caller writes the events and clears the gather.
    pub fn release(&self, seat: &mut BoardSeat, gather: &mut Gather)
        requires ours { IsOurs self.now.table.shared.table_id self.now.about seat.old }
        requires may { MayRelease seat.old.mind.view }
        requires taken { gather.old.events ≡ seat.old.mind.view.gathered }
        ensures seat { seat.new ≡ making seat.old (Release (length gather.new.events))
            (released seat.old.mind.view (length gather.new.events)) seat.old.mind.log.seen }
        ensures gather { Releases seat.old.mind.view gather.new.events }
        ensures many { length gather.new.events ≡ length gather.old.events }
        ensures capacity { gather.new.capacity ≡ gather.old.capacity }
    {
        put_in_order(gather);
        seat.token.owe();
    }
}

// Puts what was gathered into the order of the piece.
fn put_in_order(gather: &mut Gather)
    ensures permutation { IsPermutation gather.old.events gather.new.events }
    ensures sorted { IsSorted event_cmp gather.new.events }
    ensures capacity { gather.new.capacity ≡ gather.old.capacity }
{
    gather.settle();
}

fn crosses_threads<T: Send + Sync>(_value: &T) {}

// Threads may be sent boards and may share them.
fn board_crosses_threads(board: &Board) {
    crosses_threads(board);
}
