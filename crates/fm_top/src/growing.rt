//! A file in memory that grows as it is written.
ghost use Rattle.std.specs.Prelude.{◌≡◌, [], Some, None};

use fm_edge::{Append, Failed, Sink};
use std::alloc::Global;

/// A sink in memory, which takes memory as it is filled. A put that finds none fails.
#[derive(Drop)]
pub struct GrowingSink {
    bytes: Vec<u8>,
    faults: u64,
}

impl GrowingSink {
    /// An empty sink, without memory yet.
    pub fn new(alloc: Global) -> GrowingSink
        ensures { result.bytes.items ≡ [] }
    {
        GrowingSink {
            bytes: Vec::new(alloc),
            faults: 0,
        }
    }

    /// All bytes that it holds.
    pub fn content(&self) -> &[u8]
        ensures { result.now ≡ self.now.bytes.items }
    {
        self.bytes.as_slice()
    }
}

impl Append for GrowingSink {
    ghost seen = { record {
      content = λ sink. Some sink.bytes.items;
      sure = λ _. None;
      faults = λ sink. sink.faults;
    } };

    fn put(&mut self, piece: &[u8]) -> Result<(), Failed> {
        match self.bytes.extend_from_slice(piece) {
            Ok(()) => Ok(()),
            Err(_) => {
                self.faults = self.faults.saturating_add(1);
                Err(Failed)
            }
        }
    }
}

impl Sink for GrowingSink {
    fn patch(&mut self, at: u64, bytes: &[u8; 4]) -> Result<(), Failed> {
        let at = at as usize;
        self.bytes[at..at + bytes.len()].copy_from_slice(bytes);
        Ok(())
    }
}
