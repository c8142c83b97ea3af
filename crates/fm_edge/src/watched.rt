//! A handle of the host, with what passed through it.
ghost use Rattle.std.specs.Prelude.{◌≡◌, ◌≤◌, ◌+◌, ◌++◌, length, pos, take, Some, IfOk, OnErr, IfSome, OnOk, IsNone, IsSome};
ghost use Rattle.std.specs.Io.{ReadsAtMost, WritesAtMost};
ghost use Rattle.std.specs.Io.KnownBytes.{ReadConsumes, WriteAppends};
ghost use Rattle.std.specs.Io.Seek.{SeekMoves};
ghost use Rattle.std.specs.declared.io.traits.SeekFrom.TheVariants.{End, Start};
ghost use Rattle.fm_edge.specs.Calls.{called, uncalled, wrote};
ghost use Rattle.fm_edge.specs.Content.{AppendsFront};
ghost use Rattle.fm_edge.specs.Held.{IsAtEnd, WritesFront, moved, nothing_held, written};

use crate::handle::Handle;
use crate::noted::Noted;
use crate::tally::Tally;
use std::io::{Read, Result, Seek, SeekFrom, Write};
use std::marker::Model;

/// A handle to which each call is passed on. It notes the bytes that each write or read which was
/// Ok took, at the position to which the last seek which was Ok went; this takes no memory.
#[derive(Drop)]
pub(crate) struct Watched<W> {
    handle: Handle<W>,
    noted: Noted,
}

impl<W> Model for Watched<W> {
    ghost use Rattle.std.specs.Prelude.{◌≤◌, length};
    ghost use Rattle.fm_edge.specs.Held.{Passed};

    ghost Value = { Passed W };

    ghost view = { λ w. record {
      handle = w.handle.inner;
      calls = w.handle.calls;
      held = w.noted.held;
    } };

    ghost invariant = { λ w. w.noted.held.position ≤ length w.noted.held.bytes };
}

impl<W> Watched<W> {
    /// A new handle, whose file is empty.
    pub(crate) fn new(handle: W) -> Self
        ensures { result ≡ record { handle = handle; calls = uncalled; held = nothing_held } }
    {
        Watched {
            handle: Handle::new(handle),
            noted: Noted::new(),
        }
    }
}

impl<W: Drop> Watched<W> {
    /// Closes the handle, and hands over what passed through it, and how often it was called.
    pub(crate) fn close(self) -> (Noted, Tally)
        ensures held { result.0.held ≡ self.held }
        ensures calls { result.1.calls ≡ self.calls }
    {
        (self.noted, self.handle.close())
    }
}

impl<W: Write> Watched<W> {
    /// Writes once, and says how many bytes of the piece were taken.
    pub(crate) fn write(&mut self, piece: &[u8]) -> Result<usize>
        ensures bound { WritesAtMost result piece.now }
        ensures ok { IfOk result (λ n. self.new.held ≡ written self.old.held (take n piece.now)) }
        ensures err { OnErr result (self.new.held ≡ self.old.held) }

        ensures once { self.new.calls ≡ wrote self.old.calls result }
        ensures passed { WriteAppends
            (W.contents self.old.handle) (W.contents self.new.handle) result piece.now }
    {
        let count = self.handle.once_write(|handle| handle.write(piece))?;
        self.noted.write(&piece[..count]);
        Ok(count)
    }

    /// Writes the whole piece. `None` at the first write that fails, or that takes nothing of what
    /// is left: a front of the piece is written then.
    pub(crate) fn write_whole(&mut self, piece: &[u8]) -> Option<()>
        requires within { self.old.held.position ≤ length self.old.held.bytes }
        ensures ok { IfSome result (λ _. self.new.held ≡ written self.old.held piece.now) }
        ensures err { IsNone result → WritesFront self.old.held self.new.held piece.now }

        ensures few { self.new.calls.made ≤ self.old.calls.made + length piece.now }
        ensures calm { IsSome result → self.new.calls.failed ≡ self.old.calls.failed }
        ensures once { IsNone result → self.new.calls.failed ≡ self.old.calls.failed + 1 }
    {
        let mut rest = piece;
        while !rest.is_empty() {
            let count = self.write(rest).ok()?;
            if count == 0 {
                return None;
            }
            rest = &rest[count..];
        }
        Some(())
    }

    /// The same at the end of the bytes.
    pub(crate) fn append(&mut self, piece: &[u8]) -> Option<()>
        requires { IsAtEnd self.old.held }
        ensures ok { IfSome result (λ _. self.new.held.bytes ≡ self.old.held.bytes ++ piece.now) }
        ensures err { IsNone result
            → AppendsFront (Some self.old.held.bytes) (Some self.new.held.bytes) piece.now }
        ensures end { IsAtEnd self.new.held }

        ensures few { self.new.calls.made ≤ self.old.calls.made + length piece.now }
        ensures calm { IsSome result → self.new.calls.failed ≡ self.old.calls.failed }
        ensures once { IsNone result → self.new.calls.failed ≡ self.old.calls.failed + 1 }
    {
        self.write_whole(piece)
    }
}

impl<W: Read> Watched<W> {
    /// Reads once, and says how many bytes were given.
    pub(crate) fn read(&mut self, into: &mut [u8]) -> Result<usize>
        ensures bound { ReadsAtMost result into.new }
        ensures ok { IfOk result (λ n. self.new.held ≡ written self.old.held (take n into.new)) }
        ensures err { OnErr result (self.new.held ≡ self.old.held) }

        ensures once { self.new.calls ≡ called self.old.calls result }
        ensures passed { ReadConsumes
            (W.remaining self.old.handle) (W.remaining self.new.handle) result into.new }
    {
        let count = self.handle.fill(into, |handle, into| handle.read(into))?;
        self.noted.write(&into[..count]);
        Ok(count)
    }
}

impl<W: Write + Seek> Watched<W> {
    /// Moves the position, and says what the host gave as it.
    pub(crate) fn move_to(&mut self, at: u64) -> Result<u64>
        requires within { at ≤ length self.old.held.bytes }
        ensures within { self.new.held.position ≤ length self.new.held.bytes }
        ensures ok { OnOk result (self.new.held ≡ moved self.old.held at) }
        ensures err { OnErr result (self.new.held ≡ self.old.held) }

        ensures once { self.new.calls ≡ called self.old.calls result }
        ensures passed { SeekMoves (W.stream_position self.old.handle)
            (W.stream_position self.new.handle) (W.stream_bytes self.old.handle) (Start at) result }
    {
        let position = self.handle.once(|handle| handle.seek(SeekFrom::Start(at)))?;
        self.noted.move_to(at);
        Ok(position)
    }

    /// Moves the position to the end, and says what the host gave as it.
    pub(crate) fn move_to_end(&mut self) -> Result<u64>
        ensures ok { OnOk result
            (self.new.held ≡ moved self.old.held (length self.old.held.bytes)) }
        ensures err { OnErr result (self.new.held ≡ self.old.held) }

        ensures once { self.new.calls ≡ called self.old.calls result }
        ensures passed { SeekMoves (W.stream_position self.old.handle)
            (W.stream_position self.new.handle) (W.stream_bytes self.old.handle) (End (pos 0))
            result }
    {
        let position = self.handle.once(|handle| handle.seek(SeekFrom::End(0)))?;
        self.noted.move_to_end();
        Ok(position)
    }
}
