//! The channel message of an entry.
ghost use Rattle.std.specs.Prelude.{◌≡◌, IfSome, IsTrue};
ghost use Rattle.fm_msg.specs.Message.{is_in_range};
ghost use Rattle.fm_read.specs.Decoded.{of_two, of_data, data_bytes, message_from};

use fm_msg::Msg;

// A message of two data bytes.
fn of_two(kind: u8, channel: u8, a: u8, b: u8) -> Option<Msg>
    ensures { result ≡ of_two kind channel a b }
{
    match kind {
        8 => Some(Msg::Off { channel, key: a }),
        9 => Some(Msg::On {
            channel,
            key: a,
            velocity: b,
        }),
        11 => Some(Msg::Control {
            channel,
            controller: a,
            value: b,
        }),
        14 => Some(Msg::Bend {
            channel,
            bend: a as u16 + 128 * b as u16,
        }),
        _ => None,
    }
}

// A message of these data bytes.
fn of_data(status: u8, bytes: &[u8]) -> Option<Msg>
    ensures { result ≡ of_data status bytes.now }
{
    match bytes {
        [program] if status / 16 == 12 => Some(Msg::Program {
            channel: status % 16,
            program: *program,
        }),
        [a, b] => of_two(status / 16, status % 16, *a, *b),
        _ => None,
    }
}

// The data bytes of an event, behind its status byte where it has one.
fn data_bytes(bytes: &[u8]) -> &[u8]
    ensures { result.now ≡ data_bytes bytes.now }
{
    match bytes {
        [byte, more @ ..] if *byte >= 128 => more,
        _ => bytes,
    }
}

/// The message of an entry with this status and these bytes, where it is one of the five that
/// `Msg` knows; that of a note-on with velocity 0 is still a note-on. `None` for other events.
#[tactic(auto, unfolding(crate::specs::Decoded::message_from))]
pub fn message_from(status: u8, bytes: &[u8]) -> Option<Msg>
    ensures value { result ≡ message_from status bytes.now }
    ensures range { IfSome result (λ m. IsTrue (is_in_range m)) }
{
    match of_data(status, data_bytes(bytes)) {
        Some(msg) if msg.is_in_range() => Some(msg),
        _ => None,
    }
}
