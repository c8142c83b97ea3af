//! The record of a run that is being made.

ghost use Rattle.std.specs.Prelude.{◌≡◌, ◌<◌, ◌++◌, [], true, false, OnOk, OnErr, IfOk, IsErr};
ghost use Rattle.fm_record.specs.Head.{IsHead, head_bytes};
ghost use Rattle.fm_record.specs.Recording.{Recording};
ghost use Rattle.fm_record.specs.StepBytes.{AreSteps, HasFields, step_bytes};

use crate::write::{four, push_step};
use fm_core::Step;
use std::alloc::{AllocError, Global};
use std::marker::{Model, Send, Sync};

/// The record of a run that is being made: a head, and steps behind it.
#[derive(Drop)]
pub struct Tape {
    bytes: Vec<u8>,
    // Where the steps begin.
    start: usize,
    // Whether a step is missing.
    short: bool,
}

impl Model for Tape {
    ghost use Rattle.std.specs.Prelude.{length, take, drop, ◌≤◌};
    ghost use Rattle.fm_record.specs.Recording.{Recording};
    ghost use Rattle.fm_record.specs.Head.{AreHead};
    ghost use Rattle.fm_record.specs.StepBytes.{AreSteps};

    ghost Value = { Recording };

    ghost view = { λ t. record {
      head = take t.start t.bytes.items;
      steps = drop t.start t.bytes.items;
      short = t.short;
    } };

    ghost invariant = { λ t. (t.start ≤ length t.bytes.items)
        × AreHead (take t.start t.bytes.items) × AreSteps (drop t.start t.bytes.items) };
}

impl Tape {
    /// A record without steps. 1 to 17 seats, a room of 1 to 64, a lead of at most 1,000,000 ticks,
    /// and a text of at most 1,048,576 bytes.
    pub fn new(
        alloc: Global,
        seats: u32,
        room: u32,
        lead: u64,
        text: &[u8],
    ) -> Result<Tape, AllocError>
        requires { IsHead seats room lead text.now }
        ensures { IfOk result (λ tape. tape ≡ record {
          head = head_bytes seats room lead text.now;
          steps = [];
          short = false;
        }) }
    {
        let mut bytes = Vec::new(alloc);
        push_head(&mut bytes, seats, room, lead, text)?;
        let start = bytes.len();
        Ok(Tape {
            bytes,
            start,
            short: false,
        })
    }

    /// Appends a step. Where there is no memory the bytes stay as they are; the tape is short from
    /// then on, and refuses every step.
    pub fn push(&mut self, step: &Step) -> Result<(), AllocError>
        requires { HasFields step.now }
        ensures ok { OnOk result (self.new
            ≡ record self.old { steps = self.old.steps ++ step_bytes step.now }) }
        ensures err { OnErr result (self.new ≡ record self.old { short = true }) }
        ensures short { self.old.short ≡ true → IsErr result }
    {
        if self.short {
            return Err(AllocError);
        }
        match push_step(&mut self.bytes, step) {
            Ok(()) => Ok(()),
            Err(error) => {
                self.short = true;
                Err(error)
            }
        }
    }

    /// Whether a step is missing.
    pub fn is_short(&self) -> bool
        ensures { result ≡ self.now.short }
    {
        self.short
    }

    /// The whole record.
    pub fn bytes(&self) -> &[u8]
        ensures { result.now ≡ self.now.head ++ self.now.steps }
    {
        self.bytes.as_slice()
    }

    /// The bytes of the steps.
    pub fn steps(&self) -> &[u8]
        ensures value { result.now ≡ self.now.steps }
        ensures steps { AreSteps result.now }
    {
        &self.bytes[self.start..]
    }
}

// Appends what stands before the steps. After an `Err` only a part of it may be there.
fn push_head(
    bytes: &mut Vec<u8>,
    seats: u32,
    room: u32,
    lead: u64,
    text: &[u8],
) -> Result<(), AllocError>
    requires { IsHead seats room lead text.now }
    ensures { OnOk result (bytes.new.items
        ≡ bytes.old.items ++ head_bytes seats room lead text.now) }
{
    let [a, b, c, d] = four(lead as u32);
    let [e, f, g, h] = four(text.len() as u32);
    let head = [
        0x46,
        0x4D,
        0x52,
        0x31,
        seats as u8,
        room as u8,
        a,
        b,
        c,
        d,
        e,
        f,
        g,
        h,
    ];
    bytes.extend_from_slice(&head)?;
    bytes.extend_from_slice(text)
}

fn crosses_threads<T: Send + Sync>(_value: &T) {}

// Threads may send and share a tape.
fn tape_crosses_threads(tape: &Tape) {
    crosses_threads(tape);
}
