//! A handle of the host that is called in one place.
ghost use Rattle.std.specs.Prelude.{◌≡◌};
ghost use Rattle.std.specs.Fn.{FnOnceReturnsAtMut};
ghost use Rattle.fm_edge.specs.Calls.{called, uncalled, wrote};
ghost use Rattle.fm_edge.specs.Called.{ReturnsInto};

use crate::tally::Tally;
use std::io::Result;
use std::marker::Model;

/// A handle, and how often it was called. Nothing else can reach the handle.
#[derive(Drop)]
pub(crate) struct Handle<W> {
    inner: W,
    tally: Tally,
}

impl<W> Model for Handle<W> {
    ghost use Rattle.fm_edge.specs.Held.{Called};

    ghost Value = { Called W };

    ghost view = { λ h. record { inner = h.inner; calls = h.tally.calls } };
}

impl<W> Handle<W> {
    /// A handle that was not called yet.
    pub(crate) fn new(inner: W) -> Self
        ensures { result ≡ record { inner = inner; calls = uncalled } }
    {
        Handle {
            inner,
            tally: Tally::new(),
        }
    }

    /// Makes this call, and counts it.
    pub(crate) fn once<T, F: FnOnce(&mut W) -> Result<T>>(&mut self, call: F) -> Result<T>
        requires { F.IsAlwaysCallable call }
        ensures passed { FnOnceReturnsAtMut F.FnOnce call self.old.inner result self.new.inner }
        ensures counted { self.new.calls ≡ called self.old.calls result }
    {
        let result = call(&mut self.inner);
        self.tally.count(&result);
        result
    }

    /// The same of a write.
    pub(crate) fn once_write<F: FnOnce(&mut W) -> Result<usize>>(
        &mut self,
        call: F,
    ) -> Result<usize>
        requires { F.IsAlwaysCallable call }
        ensures passed { FnOnceReturnsAtMut F.FnOnce call self.old.inner result self.new.inner }
        ensures counted { self.new.calls ≡ wrote self.old.calls result }
    {
        let result = call(&mut self.inner);
        self.tally.count_write(&result);
        result
    }

    /// The same of a read, which is given the slice that it fills.
    pub(crate) fn fill<T, F: FnOnce(&mut W, &mut [u8]) -> Result<T>>(
        &mut self,
        into: &mut [u8],
        call: F,
    ) -> Result<T>
        requires { F.IsAlwaysCallable call }
        ensures passed { ReturnsInto F.FnOnce call
            self.old.inner into.old result self.new.inner into.new }
        ensures counted { self.new.calls ≡ called self.old.calls result }
    {
        let result = call(&mut self.inner, into);
        self.tally.count(&result);
        result
    }
}

impl<W: Drop> Handle<W> {
    /// Closes it, and hands over how often it was called.
    pub(crate) fn close(self) -> Tally
        ensures { result.calls ≡ self.calls }
    {
        self.tally
    }
}
