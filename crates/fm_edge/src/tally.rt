//! How often the host was called, as only clauses read it. It takes no memory, and its calls do
//! nothing at run time.
ghost use Rattle.std.specs.Prelude.{◌≡◌};
ghost use Rattle.std.specs.Borrow.{ftrue};
ghost use Rattle.fm_edge.specs.Calls.{Calls, answered, called, refused, uncalled, wrote};

use std::io::Result;
use std::marker::{Model, PhantomData};

/// How many calls were made, and how many of them failed, which clauses read as `calls`.
#[derive(Drop)]
pub struct Tally {
    marker: PhantomData<u8>,
    pub ghost calls: { Calls },
}

impl Model for Tally {
    ghost also_owns = { λ _. ftrue };
}

impl Tally {
    /// No call yet.
    pub(crate) fn new() -> Tally
        ensures { result.calls ≡ uncalled }
    {
        Tally {
            marker: PhantomData,
        }
    }

    /// One more call, which was Ok.
    fn answer(&mut self)
        ensures { self.new.calls ≡ answered self.old.calls }
    {}

    /// One more call, which failed.
    fn refuse(&mut self)
        ensures { self.new.calls ≡ refused self.old.calls }
    {}

    /// One more call, which ended so.
    pub(crate) fn count<T>(&mut self, end: &Result<T>)
        ensures { self.new.calls ≡ called self.old.calls end.now }
    {
        match end {
            Ok(_) => self.answer(),
            Err(_) => self.refuse(),
        }
    }

    /// One more write, which ended so.
    pub(crate) fn count_write(&mut self, end: &Result<usize>)
        ensures { self.new.calls ≡ wrote self.old.calls end.now }
    {
        match end {
            Ok(0) | Err(_) => self.refuse(),
            Ok(_) => self.answer(),
        }
    }

    /// Makes this call, and counts it.
    pub(crate) fn once<T, F: FnOnce() -> Result<T>>(&mut self, call: F) -> Result<T>
        requires { F.IsAlwaysCallable call }
        ensures passed { F.post call result }
        ensures counted { self.new.calls ≡ called self.old.calls result }
    {
        let end = call();
        self.count(&end);
        end
    }
}
