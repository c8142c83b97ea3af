//! The bytes of a name as a number.

ghost use Rattle.std.specs.Prelude.{◌≡◌};
ghost use Rattle.fm_names.specs.Key.{key_of};

/// How many numbers there are of seven bytes.
const SEVEN_BYTES: u64 = 0x100_0000_0000_0000;

/// The key of a name: its last eight bytes as a number, counted down. Names that are numbered
/// upwards then stand latest first, where the search for a late one meets it soonest.
#[tactic(auto, unfolding(crate::specs::Key::key_of))]
pub(crate) fn key(name: &[u8]) -> u64
    ensures { result ≡ key_of name.now }
{
    let mut number = 0;
    for byte in name {
        number = number % SEVEN_BYTES * 256 + u64::from(*byte);
    }
    u64::MAX - number
}
