//! Lengths in ticks.

ghost use Rattle.std.specs.Prelude.{◌≡◌, ◌≤◌, []};
ghost use Rattle.fm_meaning.specs.Rules.{most_ticks};
ghost use Rattle.fm_meaning.specs.Resolve.{length_ticks};
ghost use Rattle.fm_meaning.specs.Ranges.{length_faults};

use fm_grammar::Length;

/// A length in ticks, of which a whole note has `whole`; 0 where it is a share of 0.
pub fn ticks_of(whole: u32, length: &Length) -> u64
    ensures { result ≡ length_ticks whole length.now }
{
    match length {
        Length::Share { over, under } => {
            let ticks = u64::from(whole) * u64::from(over.value);
            ticks.checked_div(u64::from(under.value)).unwrap_or(0)
        }
        Length::Ticks { count } => u64::from(count.value),
    }
}

/// A length that has no fault, in ticks.
pub fn ticks(whole: u32, length: &Length) -> u32
    requires { length_faults whole length.now ≡ [] }
    ensures value { result ≡ length_ticks whole length.now }
    ensures small { result ≤ most_ticks }
{
    ticks_of(whole, length) as u32
}
