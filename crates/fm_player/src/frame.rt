//! What is open in a program.
ghost use Rattle.std.specs.Prelude.{◌≡◌, ◌<◌, true};
ghost use Rattle.fm_program.specs.declared.op.TheConstants.{MAX_INDEX};
ghost use Rattle.fm_program.specs.Parts.{stock_parts};
ghost use Rattle.fm_program.specs.State.{OpenFrame, frame_entry, frame_index, frame_moved};
ghost use Rattle.fm_program.specs.Fit.{stock_fits};

use fm_pattern::Cursor;
use fm_program::Stock;

/// An open loop or an open list.
#[derive(Drop)]
pub(crate) enum Frame {
    /// A loop: its index, how many rounds follow, and the operation at which its body begins.
    Counting { index: u32, left: u32, back: usize },
    /// A list of the stock, with the entry that comes next.
    Cycling { list: u32, cursor: Cursor },
}

impl Default for Frame {
    fn default() -> Self {
        Frame::Counting {
            index: 0,
            left: 0,
            back: 0,
        }
    }
}

impl Frame {
    ghost use Rattle.fm_player.specs.Drawing.{FrameStands, IsFrame};

    /// The index of a loop; 0 of a list.
    pub(crate) fn index(&self, stock: &Stock) -> u32
        requires { IsFrame (stock_parts stock.now) self.now }
        ensures within { result < MAX_INDEX }
        ensures index { (y : OpenFrame) → FrameStands (stock_parts stock.now) self.now y
            → result ≡ frame_index y }
    {
        match self {
            Frame::Counting { index, .. } => *index,
            Frame::Cycling { .. } => 0,
        }
    }

    /// The next entry of a list; 0 of a loop.
    pub(crate) fn next(&mut self, stock: &Stock) -> u32
        requires stock { stock_fits (stock_parts stock.now) ≡ true }
        requires frame { IsFrame (stock_parts stock.now) self.old }
        ensures frame { IsFrame (stock_parts stock.now) self.new }
        ensures entry { (y : OpenFrame) → FrameStands (stock_parts stock.now) self.old y
            → result ≡ frame_entry y }
        ensures moved { (y : OpenFrame) → FrameStands (stock_parts stock.now) self.old y
            → FrameStands (stock_parts stock.now) self.new (frame_moved y) }
    {
        match self {
            Frame::Cycling { list, cursor } => cursor.next(stock.lists[*list as usize].as_slice()),
            Frame::Counting { .. } => 0,
        }
    }
}
