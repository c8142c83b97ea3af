//! How a seat finds the word of a process without a look, and where the process ended.
ghost use Rattle.std.specs.Prelude.{◌≡◌, ◌<◌, false, length, slice_index_or, true};
ghost use Rattle.fm_core.specs.Tags.{is_ended};
ghost use Rattle.fm_strand.specs.Course.{end_place};
ghost use Rattle.fm_board.specs.Answers.{Found};
ghost use Rattle.fm_board.specs.Minds.{recalled};
ghost use Rattle.fm_board.specs.Seats.{IsOurs};
ghost use Rattle.fm_board.specs.Starting.{Recalls};
ghost use Rattle.fm_board.specs.View.{processes};
ghost use Rattle.fm_board.specs.Words.{place_at, place_word};

use crate::board::Board;
use crate::claim::Recalled;
use crate::plays::{ReadPlay, RecallPlay};
use crate::seat::BoardSeat;
use crate::seen::Seen;
use crate::words::{index_of, seen_of};
use fm_nest::MAX_LEVELS;
use fm_strand::Place;

/// Where a word of the end place of a process lies.
pub fn place_spot(process: u32, word: u32) -> usize
    requires { word < 9 }
    ensures { result ≡ place_at process word }
{
    2 + 10 * process as usize + word as usize
}

impl Board {
    /// Where a process ended, or its word, where that is not ended. The process's word is loaded
    /// once, and where it is ended the nine words of its place after it.
    pub fn recall(&self, seat: &mut BoardSeat, process: u32) -> Recalled
        requires ours { IsOurs self.now.table.shared.table_id self.now.about seat.old }
        requires there { process < processes seat.old.mind.view }
        ensures { Recalls self.now.about seat.old process result seat.new }
    {
        let found = self.peek(seat, process);
        if found.tag.is_ended() {
            Recalled::There(self.end_of(seat, process))
        } else {
            Recalled::NotYet { found }
        }
    }

    // One load of a process's word that is no look.
    pub(crate) fn peek(&self, seat: &mut BoardSeat, process: u32) -> Seen
        requires ours { IsOurs self.now.table.shared.table_id self.now.about seat.old }
        requires there { process < processes seat.old.mind.view }
        ensures found { Found seat.old process result seat.old.mind.view
            (recalled seat.old.mind process seat.new.mind.log.seen result.tag) seat.new }
        ensures wide { length seat.old.mind.over ≡ processes seat.old.mind.view }
        ensures ours { IsOurs self.now.table.shared.table_id self.now.about seat.new }
        ensures there { process < processes seat.new.mind.view }
        ensures ended { is_ended result.tag ≡ true
            → slice_index_or seat.new.mind.over process false ≡ true }
    {
        let found = seat
            .token
            .load::<RecallPlay>(&self.table.shared, index_of(process));
        seen_of(found)
    }

    // Where a process ended that the seat found ended: nine loads.
    pub(crate) fn end_of(&self, seat: &mut BoardSeat, process: u32) -> Place
        requires ours { IsOurs self.now.table.shared.table_id self.now.about seat.old }
        requires there { process < processes seat.old.mind.view }
        requires ended { slice_index_or seat.old.mind.over process false ≡ true }
        ensures seat { seat.new ≡ seat.old }
        ensures place { result ≡ end_place self.now.about.plan process }
    {
        let first = self.read(seat, process, 0);
        let mut origins = [0; MAX_LEVELS];
        for level in 0..MAX_LEVELS {
            origins[level] = self.read(seat, process, level as u32 + 1);
        }
        Place {
            depth: (first % 16) as u32,
            origins,
            position: first / 16,
        }
    }

    // One load of a word of the end place of a process that the seat found ended.
    fn read(&self, seat: &mut BoardSeat, process: u32, word: u32) -> u64
        requires ours { IsOurs self.now.table.shared.table_id self.now.about seat.old }
        requires there { process < processes seat.old.mind.view }
        requires few { word < 9 }
        requires ended { slice_index_or seat.old.mind.over process false ≡ true }
        ensures seat { seat.new ≡ seat.old }
        ensures value { result ≡ place_word (end_place self.now.about.plan process) word }
    {
        seat.token
            .load::<ReadPlay>(&self.table.shared, place_spot(process, word))
    }
}
