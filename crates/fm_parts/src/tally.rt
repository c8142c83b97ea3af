//! What is known of each channel before its track is written.
ghost use Rattle.std.specs.Prelude.{◌≡◌, ◌+◌, ◌<◌, ◌≤◌, ◌^◌, ℕ, List, length, IsTrue};
ghost use Rattle.fm_msg.specs.Message.{is_in_range};
ghost use Rattle.fm_msg.specs.declared.msg.Msg.{Msg as Message};
ghost use Rattle.fm_read.specs.Decoded.{decoded};
ghost use Rattle.fm_read.specs.Written.{time_after};
ghost use Rattle.fm_parts.specs.Format1.{channel_of, on_channel, track_of, channel_tracks};
ghost use Rattle.fm_parts.specs.Tally.{Enters, IsTally, last_of, bytes_of, more_bytes};

use crate::event::{channel_of, length_after};
use fm_msg::{CHANNELS, Msg};
use fm_read::{MAX_FILE, Track, message_from};
use std::marker::Model;

/// The last tick of each channel, and how many bytes its messages have behind their delta times.
#[derive(Drop)]
pub struct Tally {
    lasts: [u64; 16],
    bytes: [u64; 16],
}

impl Model for Tally {
    ghost use Rattle.fm_parts.specs.Tally.{Tallied};

    ghost Value = { Tallied };

    ghost view = { λ t. record { lasts = t.lasts; bytes = t.bytes } };
}

impl Tally {
    // No message yet.
    fn new() -> Tally
        ensures lasts { (c : ℕ) → last_of result c ≡ 0 }
        ensures bytes { (c : ℕ) → bytes_of result c ≡ 0 }
    {
        Tally {
            lasts: [0; 16],
            bytes: [0; 16],
        }
    }

    // Enters a message at a tick.
    fn enter(&mut self, tick: u64, msg: Msg)
        requires range { IsTrue (is_in_range msg) }
        requires past { last_of self.old (channel_of msg) ≤ tick }
        requires early { tick ≤ 2 ^ 57 }
        requires room { bytes_of self.old (channel_of msg) ≤ 2 ^ 60 }
        ensures enters { Enters self.old self.new tick msg }
        ensures few { more_bytes self.old tick msg ≤ 2 ^ 33 }
    {
        let channel = channel_of(msg) as usize;
        let mut message = [0; 3];
        let count = msg.bytes(&mut message);
        let ticks = tick - self.lasts[channel];
        self.bytes[channel] += length_after(ticks, &message[..count]);
        self.lasts[channel] = tick;
    }

    /// The last tick of a channel, or 0.
    pub fn last(&self, channel: u8) -> u64
        requires { channel < CHANNELS }
        ensures { result ≡ last_of self.now channel }
    {
        self.lasts[channel as usize]
    }

    /// How many bytes a channel's messages have behind their delta times.
    pub fn bytes(&self, channel: u8) -> u64
        requires { channel < CHANNELS }
        ensures { result ≡ bytes_of self.now channel }
    {
        self.bytes[channel as usize]
    }

    // How many tracks a channel has: one where it has a message.
    fn tracks_of(&self, channel: u8) -> u16
        requires { channel < CHANNELS }
        ensures few { result ≤ 1 }
        ensures value { (list : List (ℕ × Message)) (end : ℕ) → IsTally self.now list end
            → result ≡ length (track_of (on_channel channel list) end) }
    {
        if self.bytes(channel) == 0 { 0 } else { 1 }
    }

    /// How many tracks all channels have.
    pub fn tracks(&self) -> u16
        ensures few { result ≤ CHANNELS }
        ensures value { (list : List (ℕ × Message)) (end : ℕ) → IsTally self.now list end
            → result ≡ length (channel_tracks CHANNELS list end) }
    {
        let mut count = 0;
        for channel in 0..CHANNELS {
            count += self.tracks_of(channel);
        }
        count
    }
}

/// The table of a track's messages, and the tick of its end.
pub fn tally_of(track: Track<'_>) -> (Tally, u64)
    requires few { length track ≤ MAX_FILE }
    ensures tally { IsTally result.0 (decoded 0 track.entry) result.1 }
    ensures end { result.1 ≡ time_after 0 track.entry }
    ensures early { result.1 ≤ 2 ^ 57 }
{
    let mut entries = track;
    let mut tally = Tally::new();
    let mut now = 0;
    while let Some(entry) = entries.next() {
        now += entry.delta as u64;
        if let Some(msg) = message_from(entry.status, entry.bytes) {
            tally.enter(now, msg);
        }
    }
    (tally, now)
}
