//! How many notes sound in the window.
ghost use Rattle.std.specs.Prelude.{◌≡◌, ◌+◌, ◌*◌, ◌<◌, ◌≤◌, ◌^◌, ℕ, List, [], ◌∷◌, ◌++◌, length};
ghost use Rattle.std.specs.Prelude.{IsTrue, slice_index_or, if◌then◌else◌, ◌&&◌};
ghost use Rattle.fm_msg.specs.declared.msg.Msg.{Msg as Message};
ghost use Rattle.fm_msg.specs.Message.{is_in_range};
ghost use Rattle.fm_excerpt.specs.Excerpt.{keeps};
ghost use Rattle.fm_excerpt.specs.Table.{Sounds, endings_of};

use fm_msg::{CHANNELS, DATA_VALUES, Msg};
use std::marker::Model;

/// How many keys all channels have.
pub const ALL_KEYS: usize = 2048;

/// How many notes of each channel and key sound: note-ons less note-offs that were kept.
#[derive(Drop)]
pub struct Counts {
    counts: [u32; 2048],
}

impl Model for Counts {
    ghost use Rattle.std.specs.Prelude.{List, ℕ};

    ghost Value = { List ℕ };

    ghost view = { λ c. c.counts };
}

// The index of a channel and a key.
fn index_of(channel: u8, key: u8) -> usize
    requires channel { channel < CHANNELS }
    requires key { key < DATA_VALUES }
    ensures value { result ≡ channel * DATA_VALUES + key }
    ensures there { result < ALL_KEYS }
{
    channel as usize * DATA_VALUES as usize + key as usize
}

impl Counts {
    /// Nothing sounds.
    pub fn new() -> Counts
        ensures none { Sounds result [] }
        ensures few { length (endings_of result) ≡ 0 }
    {
        Counts { counts: [0; 2048] }
    }

    // Whether a message in the window is kept behind those that are; a note-off only where its note
    // sounds. Counts what is kept.
    fn keep(&mut self, msg: Msg) -> bool
        requires range { IsTrue (is_in_range msg) }
        requires room { (c k : ℕ) → c < CHANNELS → k < DATA_VALUES
            → slice_index_or self.old (c * DATA_VALUES + k) 0 < 2 ^ 31 }
        ensures value { (kept : List Message) → Sounds self.old kept → result ≡ keeps kept msg }
        ensures counts { (kept : List Message) → Sounds self.old kept
            → Sounds self.new (if keeps kept msg then kept ++ msg ∷ [] else kept) }
        ensures few { length (endings_of self.new) ≤ length (endings_of self.old) + 1 }
    {
        match msg {
            Msg::On { channel, key, .. } => {
                self.counts[index_of(channel, key)] += 1;
                true
            }
            Msg::Off { channel, key } => {
                let index = index_of(channel, key);
                if self.counts[index] == 0 {
                    return false;
                }
                self.counts[index] -= 1;
                true
            }
            _ => true,
        }
    }

    /// Whether the window keeps a message behind those that it has kept, if it is inside. Counts
    /// what is kept.
    pub fn take(&mut self, inside: bool, msg: Msg) -> bool
        requires range { IsTrue (is_in_range msg) }
        requires room { (c k : ℕ) → c < CHANNELS → k < DATA_VALUES
            → slice_index_or self.old (c * DATA_VALUES + k) 0 < 2 ^ 31 }
        ensures value { (kept : List Message) → Sounds self.old kept
            → result ≡ (inside && keeps kept msg) }
        ensures counts { (kept : List Message) → Sounds self.old kept
            → Sounds self.new (if inside && keeps kept msg then kept ++ msg ∷ [] else kept) }
        ensures few { length (endings_of self.new) ≤ length (endings_of self.old) + 1 }
    {
        inside && self.keep(msg)
    }

    /// How many notes of a channel and a key sound.
    pub fn count(&self, index: usize) -> u32
        requires { index < ALL_KEYS }
        ensures { result ≡ slice_index_or self.now index 0 }
    {
        self.counts[index]
    }
}
