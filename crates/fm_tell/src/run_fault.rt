//! Why a run does not do what it was asked to.
ghost use Rattle.std.specs.Prelude.{◌≡◌};
ghost use Rattle.fm_tell.specs.declared.run_fault.RunFault.TheVariants.{Memory, Write};

use fm_lex::Spot;
use fm_smf::SinkFault;
use std::alloc::AllocError;
use thiserror::Error;

/// Why a run does not end with what it was asked to do.
#[derive(Clone, Copy, Debug, PartialEq, Eq, Drop, Error)]
pub enum RunFault {
    #[error("words refused")]
    Words,
    #[error("read fault")]
    Read,
    /// The text has its first fault at the spot, with a number from 1 to 18.
    #[error("score refused: {spot} fault {number}")]
    Score { spot: Spot, number: u8 },
    /// The bytes are no Standard MIDI File: their first fault at this byte, counted from 0, with a
    /// number from 21 to 35.
    #[error("file refused: byte {position} fault {number}")]
    File { position: u32, number: u8 },
    /// The bytes are no record of a run, or not one of a run to its end: their first fault at this
    /// byte, byte of the steps, step, or number of steps, with a number from 41 to 46.
    #[error("record refused: {position} fault {number}")]
    Record { position: u32, number: u8 },
    /// The accepted score has no process of the number.
    #[error("no such process")]
    NoProcess,
    #[error("write fault")]
    Write,
    #[error("out of memory")]
    Memory,
}

impl From<AllocError> for RunFault {
    ghost from_gives = { λ _ e. e ≡ Memory };

    fn from(_: AllocError) -> Self {
        RunFault::Memory
    }
}

impl From<SinkFault> for RunFault {
    ghost from_gives = { λ _ e. e ≡ Write };

    fn from(_: SinkFault) -> Self {
        RunFault::Write
    }
}
