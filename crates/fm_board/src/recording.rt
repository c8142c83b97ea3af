//! How the end of a process is recorded.
ghost use Rattle.std.specs.Prelude.{◌≡◌, ◌+◌, ◌<◌};
ghost use Rattle.fm_board.specs.Calls.{MayRecord};
ghost use Rattle.fm_core.specs.declared.step.Step.TheVariants.{Record};
ghost use Rattle.fm_board.specs.Runs.{Extends};
ghost use Rattle.fm_board.specs.Seats.{IsOurs, MayWrite, making, seeing};
ghost use Rattle.fm_board.specs.View.{noted, wrote};
ghost use Rattle.fm_strand.specs.Course.{PlaceFits};
ghost use Rattle.fm_board.specs.Words.{place_word};

use crate::berth::Berth;
use crate::board::Board;
use crate::plays::{RecordPlay, WritePlay};
use crate::recalling::place_spot;
use crate::seat::BoardSeat;
use fm_strand::Place;

// A word of a place.
fn place_spelt(place: &Place, word: u32) -> u64
    requires few { word < 9 }
    requires fits { PlaceFits place.now }
    ensures { result ≡ place_word place.now word }
{
    if word == 0 {
        place.position * 16 + u64::from(place.depth)
    } else {
        place.origins[word as usize - 1]
    }
}

impl Board {
    /// Records where the process ended that the seat holds, whose strand came to its end in this
    /// hold: nine stores.
    pub fn record(&self, seat: &mut BoardSeat, berth: &Berth)
        requires ours { IsOurs self.now.table.shared.table_id self.now.about seat.old }
        requires may { MayRecord self.now.about seat.old.mind.view
            berth.now.process berth.now.strand }
        ensures seat { seat.new ≡ making seat.old
            (Record seat.old.mind.view.number berth.now.process) (noted seat.old.mind.view)
            seat.new.mind.log.seen }
        ensures extends { Extends seat.old.mind.view.number seat.old.mind.log seat.new.mind.log }
    {
        let place = berth.strand.place();
        let process = berth.process;
        for word in 0..8 {
            let value = place_spelt(&place, word);
            self.write(seat, process, word, value);
        }
        let last = place_spelt(&place, 8);
        self.write_last(seat, process, last);
    }

    // Stores one of the first eight words of the place of the process that the seat holds.
    fn write(&self, seat: &mut BoardSeat, process: u32, word: u32, value: u64)
        requires ours { IsOurs self.now.table.shared.table_id self.now.about seat.old }
        requires few { word < 8 }
        requires may { MayWrite self.now.about seat.old process word value }
        ensures { seat.new ≡ seeing seat.old (wrote seat.old.mind.view (word + 1)) }
    {
        seat.token
            .store::<WritePlay>(&self.table.shared, place_spot(process, word), value);
    }

    // Stores the last one, which is the core's Record.
    fn write_last(&self, seat: &mut BoardSeat, process: u32, value: u64)
        requires ours { IsOurs self.now.table.shared.table_id self.now.about seat.old }
        requires may { MayWrite self.now.about seat.old process 8 value }
        ensures seat { seat.new ≡ making seat.old
            (Record seat.old.mind.view.number process) (noted seat.old.mind.view)
            seat.new.mind.log.seen }
        ensures extends { Extends seat.old.mind.view.number seat.old.mind.log seat.new.mind.log }
    {
        seat.token
            .store::<RecordPlay>(&self.table.shared, place_spot(process, 8), value);
        seat.over = true;
    }
}
