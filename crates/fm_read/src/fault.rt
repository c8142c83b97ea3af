//! Why bytes are no file.
ghost use Rattle.std.specs.Prelude.{◌≡◌, Some};
ghost use Rattle.fm_read.specs.Fault.{kind_number, kind_text};

use std::fmt;
use thiserror::Error;

/// What is wrong at a position of a file.
#[derive(Clone, Copy, Debug, PartialEq, Eq, Drop)]
pub enum ReadKind {
    /// The bytes begin with `RIFF`.
    Wrapped,
    /// They begin otherwise than with `MThd`.
    NotMidi,
    /// A chunk passes the file's end, or an event its body's end. Fewer than eight bytes behind
    /// the last chunk are a chunk that passes the end too.
    Truncated,
    /// The header has fewer than six bytes.
    ShortHeader,
    /// The format is 2.
    FormatTwo,
    /// The format is above 2.
    BadFormat,
    /// The division counts frames.
    Smpte,
    /// Bit 7 is set in the fourth byte of a quantity.
    BadQuantity,
    /// A status byte is that of no channel message, sysex or meta event.
    BadStatus,
    /// A data byte, or a type of a meta event, is above 127.
    BadData,
    /// A data byte stands where no status is in force.
    NoStatus,
    /// A track ends without End of Track.
    NoEnd,
    /// A byte follows End of Track.
    AfterEnd,
    /// The file has no track.
    NoTrack,
}

impl ReadKind {
    /// The number of the fault, 21 to 34.
    pub fn number(self) -> u8
        ensures { result ≡ kind_number self }
    {
        match self {
            ReadKind::Wrapped => 21,
            ReadKind::NotMidi => 22,
            ReadKind::Truncated => 23,
            ReadKind::ShortHeader => 24,
            ReadKind::FormatTwo => 25,
            ReadKind::BadFormat => 26,
            ReadKind::Smpte => 27,
            ReadKind::BadQuantity => 28,
            ReadKind::BadStatus => 29,
            ReadKind::BadData => 30,
            ReadKind::NoStatus => 31,
            ReadKind::NoEnd => 32,
            ReadKind::AfterEnd => 33,
            ReadKind::NoTrack => 34,
        }
    }
}

/// The number of the fault.
impl fmt::Display for ReadKind {
    ghost output = { λ kind. Some (kind_text kind) };

    fn fmt<W: fmt::Write>(&self, f: &mut fmt::Formatter<W>) -> fmt::Result {
        write!(f, "fault {}", self.number())
    }
}

/// The first fault of some bytes, and how many of them are left from its position on.
#[derive(Clone, Copy, Debug, PartialEq, Eq)]
pub struct Stop {
    pub kind: ReadKind,
    pub left: usize,
}

/// The bytes end too early.
pub const CUT: Stop = Stop {
    kind: ReadKind::Truncated,
    left: 0,
};

/// Why bytes are no file: the first fault, and its position in bytes from the start, from 0.
#[derive(Clone, Copy, Debug, PartialEq, Eq, Error)]
#[error("byte {position}: {kind}")]
pub struct ReadFault {
    pub kind: ReadKind,
    pub position: u32,
}
