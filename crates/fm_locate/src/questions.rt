//! How often a deformation is asked for a position: a count for the proofs, which takes no bytes.

use fm_tick::MAX_TICK;
use fm_warp::Warp;
use std::marker::Model;
use std::sync::ledger::{Blank, Book, Ledger, Share};

/// How many questions were asked. Only `ask` changes it.
#[derive(Drop)]
pub(crate) struct Questions<L: Ledger> {
    book: Book<L>,
    share: Share<L>,
}

impl<L: Ledger> Model for Questions<L> {
    ghost use Rattle.std.specs.Prelude.{ℕ, ◌<◌};

    ghost Value = { ℕ };

    ghost view = { λ q. q.book.total };

    ghost invariant = { λ q. 0 < q.share.parts };
}

impl<L: Ledger> Questions<L> {
    ghost use Rattle.std.specs.Prelude.{◌≡◌, ◌+◌, ◌<◌, ◌≤◌};
    ghost use Rattle.fm_warp.specs.Deformation.{at};

    /// None yet.
    pub(crate) fn new(blank: Blank) -> Self
        requires name { blank.name ≡ L.name }
        requires parts { blank.parts ≡ L.parts }
        requires some { 0 < L.parts }
        ensures { result ≡ 0 }
    {
        let (book, share) = blank.open();
        Questions { book, share }
    }

    /// Where the deformation puts the position `x`: one question.
    pub(crate) fn ask(&mut self, warp: &Warp, x: u64) -> u64
        requires { x ≤ MAX_TICK }
        ensures value { result ≡ at warp.now x }
        ensures count { self.new ≡ self.old + 1 }
    {
        self.book.add(&mut self.share, 1);
        warp.at(x)
    }
}
