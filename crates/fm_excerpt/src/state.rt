//! What the messages before a tick have set.
ghost use Rattle.std.specs.Prelude.{◌≡◌, ◌<◌, ◌≤◌, List, [], ◌∷◌, ◌++◌, length};
ghost use Rattle.std.specs.Prelude.{IsTrue, IfSome, slice_index_or, None};
ghost use Rattle.fm_msg.specs.declared.msg.Msg.{Msg as Message};
ghost use Rattle.fm_msg.specs.Message.{is_in_range};
ghost use Rattle.fm_read.specs.Decoded.{decoded};
ghost use Rattle.fm_read.specs.Written.{time_after};
ghost use Rattle.fm_excerpt.specs.Excerpt.{before};
ghost use Rattle.fm_excerpt.specs.Table.{Holds, slot_of};

use fm_msg::{CHANNELS, DATA_VALUES, Msg};
use fm_read::{MAX_FILE, Track, message_from};
use std::marker::Model;

/// How many slots a channel has: for its program, its controllers and its bend.
pub const CHANNEL_SLOTS: usize = 130;

/// How many slots all channels have.
pub const SLOTS: usize = 2080;

/// The last program, controllers and bend of each channel, as the messages that set them.
#[derive(Drop)]
pub struct State {
    slots: [Option<Msg>; 2080],
}

impl Model for State {
    ghost use Rattle.std.specs.Prelude.{List, Option};
    ghost use Rattle.fm_msg.specs.declared.msg.Msg.{Msg as Message};
    ghost use Rattle.fm_excerpt.specs.Table.{SlotsAreInRange};

    ghost Value = { List (Option Message) };

    ghost view = { λ s. s.slots };

    ghost invariant = { λ s. SlotsAreInRange s.slots };
}

// The slot of what a message sets, where it sets something.
fn slot_of(msg: Msg) -> Option<usize>
    requires { IsTrue (is_in_range msg) }
    ensures value { result ≡ slot_of msg }
    ensures there { IfSome result (λ i. i < SLOTS) }
{
    match msg {
        Msg::Program { channel, .. } => Some(channel as usize * CHANNEL_SLOTS),
        Msg::Control {
            channel,
            controller,
            ..
        } => Some(channel as usize * CHANNEL_SLOTS + (1 + controller as usize)),
        Msg::Bend { channel, .. } => {
            Some(channel as usize * CHANNEL_SLOTS + (1 + DATA_VALUES as usize))
        }
        Msg::On { .. } => None,
        Msg::Off { .. } => None,
    }
}

impl State {
    // Nothing is set.
    fn new() -> State
        ensures { Holds result [] }
    {
        State {
            slots: [None; 2080],
        }
    }

    // Takes a message more.
    fn take(&mut self, msg: Msg)
        requires { IsTrue (is_in_range msg) }
        ensures { (ms : List Message) → Holds self.old ms → Holds self.new (ms ++ msg ∷ []) }
    {
        if let Some(slot) = slot_of(msg) {
            self.slots[slot] = Some(msg);
        }
    }

    /// The message in a slot, in range.
    pub fn message(&self, slot: usize) -> Option<Msg>
        requires { slot < SLOTS }
        ensures value { result ≡ slice_index_or self.now slot None }
        ensures range { IfSome result (λ m. IsTrue (is_in_range m)) }
    {
        self.slots[slot]
    }
}

/// What the messages of a track before this tick have set, and the tick of the track's end.
pub fn state_before(track: Track<'_>, begin: u64) -> (State, u64)
    requires few { length track ≤ MAX_FILE }
    ensures state { Holds result.0 (before begin (decoded 0 track.entry)) }
    ensures end { result.1 ≡ time_after 0 track.entry }
{
    let mut entries = track;
    let mut state = State::new();
    let mut now = 0;
    while let Some(entry) = entries.next() {
        now += entry.delta as u64;
        if let Some(msg) = message_from(entry.status, entry.bytes)
            && now < begin
        {
            state.take(msg);
        }
    }
    (state, now)
}
