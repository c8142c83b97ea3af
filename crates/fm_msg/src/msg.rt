//! The five channel messages.
ghost use Rattle.std.specs.Prelude.{◌≡◌, ◌++◌, drop, length, IsTrue};

/// How many channels there are.
pub const CHANNELS: u8 = 16;

/// How many values a data byte has: keys, velocities, controllers, their values, programs.
pub const DATA_VALUES: u8 = 128;

/// How many values a bend has: two data bytes.
pub const BEND_VALUES: u16 = 16_384;

/// The velocity of each note-off.
const RELEASE: u8 = 64;

/// A channel message of MIDI 1.0. It is in range where its channel is below 16, its bend is
/// below 16,384 and each of its other numbers is below 128.
#[derive(Clone, Copy, Debug, PartialEq, Eq, PartialOrd, Ord)]
pub enum Msg {
    /// Note-on.
    On {
        channel: u8,
        key: u8,
        velocity: u8,
    },
    /// Note-off. Its velocity is always 64.
    Off {
        channel: u8,
        key: u8,
    },
    /// Control change.
    Control {
        channel: u8,
        controller: u8,
        value: u8,
    },
    /// Program change.
    Program {
        channel: u8,
        program: u8,
    },
    /// Pitch bend change, 0 to 16,383, where 8,192 is no bend.
    Bend {
        channel: u8,
        bend: u16,
    },
}

impl Msg {
    ghost use Rattle.fm_msg.specs.Message.{is_in_range, message_bytes};

    /// Whether each number of the message has its place in the message's bytes.
    pub fn is_in_range(&self) -> bool
        ensures { result ≡ is_in_range self.now }
    {
        match *self {
            Msg::On {
                channel,
                key,
                velocity,
            } => channel < CHANNELS && key < DATA_VALUES && velocity < DATA_VALUES,
            Msg::Off { channel, key } => channel < CHANNELS && key < DATA_VALUES,
            Msg::Control {
                channel,
                controller,
                value,
            } => channel < CHANNELS && controller < DATA_VALUES && value < DATA_VALUES,
            Msg::Program { channel, program } => channel < CHANNELS && program < DATA_VALUES,
            Msg::Bend { channel, bend } => channel < CHANNELS && bend < BEND_VALUES,
        }
    }

    /// Writes the message's bytes to the front of `out` and says how many there are: 2 of a
    /// program change, else 3.
    pub fn bytes(&self, out: &mut [u8; 3]) -> usize
        requires { IsTrue (is_in_range self.now) }
        ensures count { result ≡ length (message_bytes self.now) }
        ensures bytes { out.new ≡ message_bytes self.now ++ drop result out.old }
    {
        match *self {
            Msg::On {
                channel,
                key,
                velocity,
            } => put_three(out, [0x90 + channel, key, velocity]),
            Msg::Off { channel, key } => put_three(out, [0x80 + channel, key, RELEASE]),
            Msg::Control {
                channel,
                controller,
                value,
            } => put_three(out, [0xB0 + channel, controller, value]),
            Msg::Program { channel, program } => put_two(out, [0xC0 + channel, program]),
            Msg::Bend { channel, bend } => {
                let low = (bend % 128) as u8;
                let high = (bend / 128) as u8;
                put_three(out, [0xE0 + channel, low, high])
            }
        }
    }
}

fn put_two(out: &mut [u8; 3], bytes: [u8; 2]) -> usize
    ensures count { result ≡ 2 }
    ensures bytes { out.new ≡ bytes ++ drop 2 out.old }
{
    out[0] = bytes[0];
    out[1] = bytes[1];
    2
}

fn put_three(out: &mut [u8; 3], bytes: [u8; 3]) -> usize
    ensures count { result ≡ 3 }
    ensures bytes { out.new ≡ bytes }
{
    *out = bytes;
    3
}
