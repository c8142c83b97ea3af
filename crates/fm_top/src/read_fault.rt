//! Why an input is not read to its end.
ghost use Rattle.std.specs.Prelude.{◌≡◌};
ghost use Rattle.fm_top.specs.declared.read_fault.ReadFault.TheVariants.{Failed, Memory};

use fm_edge::Failed as SourceFailed;
use std::alloc::AllocError;

/// Why `read_input` gives no input. Nobody is shown it: each task says what it means to it.
#[derive(Clone, Copy, Debug)]
pub enum ReadFault {
    /// A read failed.
    Failed,
    /// The source has more bytes than there may be.
    TooLong,
    /// Want of memory.
    Memory,
}

impl From<AllocError> for ReadFault {
    ghost from_gives = { λ _ e. e ≡ Memory };

    fn from(_: AllocError) -> Self {
        ReadFault::Memory
    }
}

impl From<SourceFailed> for ReadFault {
    ghost from_gives = { λ _ e. e ≡ Failed };

    fn from(_: SourceFailed) -> Self {
        ReadFault::Failed
    }
}
