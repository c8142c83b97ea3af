//! Bytes on their way to a sink, gathered to pieces.
ghost use Rattle.std.specs.Prelude.{◌≡◌, ◌+◌, ◌++◌, ◌<◌, [], ◌∷◌, length, IsOk, OnOk, OnErr};
ghost use Rattle.fm_edge.specs.Runs.{Puts, Breaks};
ghost use Rattle.fm_edge.specs.Gathered.{Passes};
ghost use Rattle.fm_edge.specs.declared.gatherer.TheConstants.{PIECE_LENGTH};

use crate::{Append, Failed};
use arrayvec::ArrayVec;
use std::marker::Model;

/// How many bytes a piece has that is put before the end.
pub const PIECE_LENGTH: usize = 4096;

/// The bytes that were not put yet, fewer than a piece. Clauses see them as a list.
#[derive(Drop)]
pub struct Gatherer {
    bytes: ArrayVec<u8, 4096>,
}

impl Model for Gatherer {
    ghost use Rattle.std.specs.Prelude.{◌<◌, List, ℕ};
    ghost use Rattle.arrayvec.specs.ArrayVec.{array_vec_len};
    ghost use Rattle.fm_edge.specs.declared.gatherer.TheConstants.{PIECE_LENGTH};

    ghost Value = { List ℕ };

    ghost view = { λ g. g.bytes.items };

    ghost invariant = { λ g. array_vec_len g.bytes < PIECE_LENGTH };
}

impl Gatherer {
    /// Nothing is gathered.
    pub fn new() -> Gatherer
        ensures { result ≡ [] }
    {
        Gatherer {
            bytes: ArrayVec::new(),
        }
    }

    /// Takes a byte more, and puts the piece that is full with it. After an `Err` some front of
    /// what is gathered and the byte was put, and the gatherer is of no more use.
    pub fn push<K: Append>(&mut self, byte: u8, sink: &mut K) -> Result<(), Failed>
        ensures ok { OnOk result (Passes K.seen
            sink.old sink.new self.old self.new (byte ∷ [])) }
        ensures err { OnErr result (Breaks K.seen
            sink.old sink.new (self.old ++ byte ∷ [])) }

        ensures keeps { length self.old + 1 < PIECE_LENGTH
            → IsOk result × (sink.new ≡ sink.old) }
    {
        self.bytes.push(byte);
        if self.bytes.len() < PIECE_LENGTH {
            return Ok(());
        }
        let put = sink.put(self.bytes.as_slice());
        self.bytes.clear();
        put
    }

    /// Takes these bytes, and puts each piece that is full with them. After an `Err` some front of
    /// what is gathered and the bytes was put, and the gatherer is of no more use.
    pub fn push_all<K: Append>(&mut self, bytes: &[u8], sink: &mut K) -> Result<(), Failed>
        ensures ok { OnOk result (Passes K.seen
            sink.old sink.new self.old self.new bytes.now) }
        ensures err { OnErr result (Breaks K.seen
            sink.old sink.new (self.old ++ bytes.now)) }
    {
        for byte in bytes {
            self.push(*byte, sink)?;
        }
        Ok(())
    }

    /// Puts what is gathered, which is less than a piece; where it is nothing, no call is made.
    /// After an `Err` some front of it was put.
    pub fn finish<K: Append>(self, sink: &mut K) -> Result<(), Failed>
        ensures ok { OnOk result (Puts K.seen sink.old sink.new self) }
        ensures err { OnErr result (Breaks K.seen sink.old sink.new self) }

        ensures keeps { self ≡ [] → IsOk result × (sink.new ≡ sink.old) }
    {
        if self.bytes.is_empty() {
            Ok(())
        } else {
            sink.put(self.bytes.as_slice())
        }
    }
}
