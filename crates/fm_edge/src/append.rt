//! Where bytes go, one piece behind the other.
ghost use Rattle.std.specs.Prelude.{OnOk, OnErr};
ghost use Rattle.fm_edge.specs.Runs.{Puts, Breaks};
ghost use Rattle.fm_edge.specs.Seen.{SinkSeen};

use crate::Failed;

/// What takes bytes at its end alone, as a pipe does.
pub trait Append {
    /// What is seen of it: all its bytes, where it tells them; up to which length of them no put fails,
    /// where it tells that; and how often it has failed. Whether it tells, and `sure`, never change.
    ghost seen: { SinkSeen Self };

    /// Appends the piece. After an `Err` some front of it is appended.
    fn put(&mut self, piece: &[u8]) -> Result<(), Failed>
        ensures ok { OnOk result (Puts seen self.old self.new piece.now) }
        ensures err { OnErr result (Breaks seen self.old self.new piece.now) };
}
