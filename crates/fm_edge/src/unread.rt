//! Bytes in memory that are read from the front.
ghost use Rattle.std.specs.Prelude.{◌≡◌, ◌≤◌, ◌++◌, ℕ, List, length, take, drop, min, vec_len};

use std::marker::Model;

/// The bytes that were not read yet.
#[derive(Drop)]
pub struct Unread {
    bytes: Vec<u8>,
    read: usize,
}

impl Model for Unread {
    ghost Value = { List ℕ };

    ghost view = { λ u. drop u.read u.bytes.items };

    ghost invariant = { λ u. u.read ≤ vec_len u.bytes };
}

impl Unread {
    /// Nothing of these bytes is read.
    pub fn new(bytes: Vec<u8>) -> Self
        ensures { result ≡ bytes.items }
    {
        Unread { bytes, read: 0 }
    }

    /// Moves bytes into the slice, at most so many, and says how many.
    pub fn take_into(&mut self, most: usize, into: &mut [u8]) -> usize
        ensures count { result ≡ min (min (length into.old) most) (length self.old) }
        ensures bytes { self.old ≡ take result into.new ++ self.new }
    {
        let count = into.len().min(most).min(self.bytes.len() - self.read);
        into[..count].copy_from_slice(&self.bytes[self.read..self.read + count]);
        self.read += count;
        count
    }
}
