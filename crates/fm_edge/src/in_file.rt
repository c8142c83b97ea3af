//! A file that is open to be read.
ghost use Rattle.std.specs.Prelude.{◌≡◌, ◌≤◌, ◌<◌, ◌++◌, ◌⊎◌, ◌↔◌, ◌+◌, [], true, false, length, take, IfSome, IsNone, IsSome};
ghost use Rattle.fm_edge.specs.Calls.{uncalled};

use crate::noted::Noted;
use crate::tally::Tally;
use crate::watched::Watched;
use std::io::Read;
use std::marker::Model;

/// A file that is read to its end, and closed there: it has no handle of the host from then on, and
/// gives nothing more. Clauses see the bytes that the reads gave, whether the end was shown, and how
/// often the handle was called.
#[derive(Drop)]
pub(crate) struct InFile<W> {
    file: Option<Watched<W>>,
    closed: Noted,
    tally: Tally,
}

impl<W> Model for InFile<W> {
    ghost use Rattle.std.specs.Prelude.{is_none};
    ghost use Rattle.fm_edge.specs.Held.{Given, StandsAtEnd, calls_by, read_by};

    ghost Value = { Given };

    ghost view = { λ i. record {
      bytes = read_by i.file i.closed.held;
      ended = is_none i.file;
      calls = calls_by i.file i.tally.calls;
    } };

    ghost invariant = { λ i. StandsAtEnd i.file };
}

impl<W> InFile<W> {
    /// A file of which nothing was read yet.
    pub(crate) fn new(handle: W) -> Self
        ensures { result ≡ record { bytes = []; ended = false; calls = uncalled } }
    {
        InFile {
            file: Some(Watched::new(handle)),
            closed: Noted::new(),
            tally: Tally::new(),
        }
    }
}

impl<W: Read + Drop> InFile<W> {
    /// Reads once, and says how many bytes were given; none behind the end. `None` where the host
    /// failed.
    pub(crate) fn read(&mut self, into: &mut [u8]) -> Option<usize>
        ensures bound { IfSome result (λ n. n ≤ length into.new) }
        ensures given { IfSome result (λ n. self.new.bytes ≡ self.old.bytes ++ take n into.new) }
        ensures shown { IfSome result (λ n. self.new.ended ≡ true
            ↔ ((self.old.ended ≡ true) ⊎ (n ≡ 0) × (0 < length into.new))) }
        ensures same { IsNone result
            → (self.new.bytes ≡ self.old.bytes) × (self.new.ended ≡ self.old.ended) }

        ensures few { self.new.calls.made ≤ self.old.calls.made + 1 }
        ensures calm { IsSome result → self.new.calls.failed ≡ self.old.calls.failed }
        ensures once { IsNone result → self.new.calls.failed ≡ self.old.calls.failed + 1 }
    {
        let Some(file) = self.file.as_mut() else {
            return Some(0);
        };
        let count = file.read(into).ok()?;
        if count == 0 && !into.is_empty() {
            self.close();
        }
        Some(count)
    }

    // Closes the file at its end.
    fn close(&mut self)
        ensures { self.new ≡ record self.old { ended = true } }
    {
        if let Some(file) = self.file.take() {
            (self.closed, self.tally) = file.close();
        }
    }
}
