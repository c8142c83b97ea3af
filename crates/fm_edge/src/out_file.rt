//! A file that is open to be written.
ghost use Rattle.std.specs.Prelude.{◌≡◌, ◌≤◌, ◌+◌, ◌++◌, [], length, Some, IfSome, IsNone, IsSome};
ghost use Rattle.fm_edge.specs.Calls.{uncalled};
ghost use Rattle.fm_edge.specs.Content.{AppendsFront, OverwritesFront, overwritten};

use crate::watched::Watched;
use std::io::{Seek, Write};
use std::marker::Model;

/// An open file that is written at its end, and in which four bytes can be written over. It is
/// `astray` while its position may be elsewhere. Clauses see its bytes, and how often its handle was
/// called.
#[derive(Drop)]
pub(crate) struct OutFile<W> {
    file: Watched<W>,
    astray: bool,
}

impl<W> Model for OutFile<W> {
    ghost use Rattle.std.specs.Prelude.{◌≡◌, false};
    ghost use Rattle.fm_edge.specs.Held.{IsAtEnd, Kept};

    ghost Value = { Kept };

    ghost view = { λ o. record { bytes = o.file.held.bytes; calls = o.file.calls } };

    ghost invariant = { λ o. o.astray ≡ false → IsAtEnd o.file.held };
}

impl<W> OutFile<W> {
    /// A new file, which is empty.
    pub(crate) fn new(handle: W) -> Self
        ensures { result ≡ record { bytes = []; calls = uncalled } }
    {
        OutFile {
            file: Watched::new(handle),
            astray: false,
        }
    }
}

impl<W: Write + Seek> OutFile<W> {
    /// Appends the piece. `None` where the host failed: a front of the piece is appended then.
    pub(crate) fn append(&mut self, piece: &[u8]) -> Option<()>
        ensures ok { IfSome result (λ _. self.new.bytes ≡ self.old.bytes ++ piece.now) }
        ensures err { IsNone result
            → AppendsFront (Some self.old.bytes) (Some self.new.bytes) piece.now }

        ensures few { self.new.calls.made ≤ self.old.calls.made + (length piece.now + 1) }
        ensures calm { IsSome result → self.new.calls.failed ≡ self.old.calls.failed }
        ensures once { IsNone result → self.new.calls.failed ≡ self.old.calls.failed + 1 }
    {
        if !self.astray {
            return self.file.append(piece);
        }
        self.file.move_to_end().ok()?;
        self.astray = false;
        self.file.append(piece)
    }

    /// Writes over the four bytes at this position, and goes back to the end. `None` where the host
    /// failed: the first few are written then.
    pub(crate) fn overwrite(&mut self, at: u64, bytes: &[u8; 4]) -> Option<()>
        requires within { at + 4 ≤ length self.old.bytes }
        ensures ok { IfSome result (λ _. self.new.bytes ≡ overwritten self.old.bytes at bytes.now) }
        ensures err { IsNone result
            → OverwritesFront (Some self.old.bytes) (Some self.new.bytes) at bytes.now }

        ensures few { self.new.calls.made ≤ self.old.calls.made + 6 }
        ensures calm { IsSome result → self.new.calls.failed ≡ self.old.calls.failed }
        ensures once { IsNone result → self.new.calls.failed ≡ self.old.calls.failed + 1 }
    {
        self.astray = true;
        self.file.move_to(at).ok()?;
        self.file.write_whole(bytes)?;
        self.file.move_to_end().ok()?;
        self.astray = false;
        Some(())
    }
}
