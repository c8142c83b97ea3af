//! The events that the last note still gives.
ghost use Rattle.std.specs.Prelude.{◌≡◌, ◌≤◌, ◌<◌, ◌+◌, ◌*◌, ◌^◌, ℕ, [], ◌∷◌, length, All, true, false, None, IfSome, IsTrue};
ghost use Rattle.fm_msg.specs.declared.msg.TheConstants.{CHANNELS, DATA_VALUES};
ghost use Rattle.fm_msg.specs.Message.{is_in_range};
ghost use Rattle.fm_line.specs.Sounds.{most_waiting};
ghost use Rattle.fm_offs.specs.Stack.{IsOff, off_sound};

use arrayvec::ArrayVec;
use fm_msg::{Event, Msg};
use fm_offs::NoteOff;
use fm_program::MAX_PITCHES;

/// A note whose note-ons and then note-offs are given one by one.
#[derive(Drop)]
pub(crate) struct Pending {
    keys: ArrayVec<u8, MAX_PITCHES>,
    channel: u8,
    velocity: u8,
    /// The tick of the note-ons.
    onset: u64,
    /// The tick of the note-offs.
    ending: u64,
    /// The number of the first note-on.
    first: u32,
    /// How many events were given.
    given: usize,
}

impl Pending {
    ghost use Rattle.fm_player.specs.Sounding.{IsPending, StartsAt, is_at_off, next_msg, next_time, ons_left, pending_events};

    /// No note.
    pub(crate) fn none() -> Self
        ensures pending { IsPending result }
        ensures events { (j : ℕ) → pending_events j result ≡ [] }
        ensures given { result.given ≡ 0 }
    {
        Pending {
            keys: ArrayVec::new(),
            channel: 0,
            velocity: 0,
            onset: 0,
            ending: 0,
            first: 0,
            given: 0,
        }
    }

    /// A note of which nothing was given.
    pub(crate) fn note(
        keys: ArrayVec<u8, MAX_PITCHES>,
        channel: u8,
        velocity: u8,
        onset: u64,
        ending: u64,
        first: u32,
    ) -> Self
        requires channel { channel < CHANNELS }
        requires velocity { velocity < DATA_VALUES }
        requires keys { All (λ key. key < DATA_VALUES) keys.items }
        requires numbers { first + 2 * length keys.items < 2 ^ 32 }
        ensures pending { IsPending result }
        ensures is { result ≡ record {
          keys = keys;
          channel = channel;
          velocity = velocity;
          onset = onset;
          ending = ending;
          first = first;
          given = 0;
        } }
    {
        Pending {
            keys,
            channel,
            velocity,
            onset,
            ending,
            first,
            given: 0,
        }
    }

    /// The time of the next event.
    pub(crate) fn time(&self) -> Option<u64>
        ensures none { result ≡ None → (j : ℕ) → pending_events j self.now ≡ [] }
        ensures some { IfSome result (λ t. (j : ℕ) → StartsAt t (pending_events j self.now)) }
        ensures left { IfSome result (λ _. self.now.given < 2 * length self.now.keys.items) }
    {
        if self.given < 2 * self.keys.len() {
            Some(self.next_time())
        } else {
            None
        }
    }

    /// Whether an event is left.
    pub(crate) fn is_left(&self) -> bool
        ensures left { result ≡ true → self.now.given < 2 * length self.now.keys.items }
        ensures none { result ≡ false → (j : ℕ) → pending_events j self.now ≡ [] }
        ensures past { result ≡ false → 2 * length self.now.keys.items ≤ self.now.given }
    {
        self.given < 2 * self.keys.len()
    }

    /// The tick of the note-ons.
    pub(crate) fn onset(&self) -> u64
        ensures { result ≡ self.now.onset }
    {
        self.onset
    }

    /// How many note-ons are left.
    pub(crate) fn ons_left(&self) -> usize
        ensures value { result ≡ ons_left self.now }
        ensures few { result ≤ most_waiting }
    {
        if self.given < self.keys.len() {
            self.keys.len() - self.given
        } else {
            0
        }
    }

    /// Whether a note-off is next.
    pub(crate) fn is_at_off(&self) -> bool
        ensures { result ≡ is_at_off self.now }
    {
        self.keys.len() <= self.given && self.given < 2 * self.keys.len()
    }

    /// Gives the next event.
    pub(crate) fn take(&mut self, process: u32) -> Event
        requires pending { IsPending self.old }
        requires left { self.old.given < 2 * length self.old.keys.items }
        ensures pending { IsPending self.new }
        ensures event { pending_events process self.old ≡ result ∷ pending_events process self.new }
        ensures given { self.new ≡ record self.old { given = self.old.given + 1 } }
    {
        let time = self.next_time();
        let index = self.first + self.given as u32;
        let msg = self.msg();
        self.given += 1;
        Event::new(time, process, index, msg)
    }

    /// Gives the next note-off.
    pub(crate) fn take_off(&mut self) -> NoteOff
        requires pending { IsPending self.old }
        requires off { is_at_off self.old ≡ true }
        ensures range { IsOff result }
        ensures sound { off_sound result
            ≡ record { time = next_time self.old; msg = next_msg self.old } }
        ensures given { self.new ≡ record self.old { given = self.old.given + 1 } }
    {
        let key = self.keys[self.given - self.keys.len()];
        self.given += 1;
        NoteOff {
            tick: self.ending,
            channel: self.channel,
            key,
        }
    }

    // The time of the next event where one is left.
    fn next_time(&self) -> u64
        ensures { result ≡ next_time self.now }
    {
        if self.given < self.keys.len() {
            self.onset
        } else {
            self.ending
        }
    }

    // The next message.
    fn msg(&self) -> Msg
        requires pending { IsPending self.now }
        requires left { self.now.given < 2 * length self.now.keys.items }
        ensures value { result ≡ next_msg self.now }
        ensures range { IsTrue (is_in_range result) }
    {
        let pitches = self.keys.len();
        if self.given < pitches {
            Msg::On {
                channel: self.channel,
                key: self.keys[self.given],
                velocity: self.velocity,
            }
        } else {
            Msg::Off {
                channel: self.channel,
                key: self.keys[self.given - pitches],
            }
        }
    }
}
