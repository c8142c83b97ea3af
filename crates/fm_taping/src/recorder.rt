//! What a board is played on record with.
ghost use Rattle.std.specs.Prelude.{◌≡◌};

use fm_record::Tape;

/// A tape on which the steps of a board are kept.
#[derive(Drop)]
pub struct Recorder {
    pub tape: Tape,
}

impl Recorder {
    /// One that goes on with this tape.
    pub fn new(tape: Tape) -> Recorder
        ensures { result.tape ≡ tape }
    {
        Recorder { tape }
    }
}
