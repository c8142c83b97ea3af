//! Numbers and lengths.

ghost use Rattle.std.specs.Prelude.{◌≡◌};
ghost use Rattle.fm_meaning.specs.Faults.{first_found};
ghost use Rattle.fm_meaning.specs.Ranges.{number_faults, share_faults, length_faults};
ghost use Rattle.fm_meaning.specs.Ranges.{literal_faults};
ghost use Rattle.fm_rules.specs.Found.{found};
ghost use Rattle.fm_rules.specs.declared.why.Why.TheVariants.{OutOfRange};

use fm_grammar::{Length, Number};
use fm_lex::Spot;
use fm_rules::{Fault, Why};

/// The longest length that is written as one, in ticks.
pub const MAX_TICKS: u32 = 1_000_000;

/// A number outside its range, or an entry too many.
pub(crate) fn out_of_range(spot: Spot) -> Fault
    ensures { result ≡ record { why = OutOfRange; spot = spot } }
{
    Fault {
        why: Why::OutOfRange,
        spot,
    }
}

/// A number from `least` to `most`.
pub(crate) fn check_number(number: Number, least: u32, most: u32) -> Result<(), Fault>
    ensures { found result ≡ first_found (number_faults least most number) }
{
    if number.value < least || most < number.value {
        return Err(out_of_range(number.spot));
    }
    Ok(())
}

/// A literal from `least` to `most`.
pub(crate) fn check_literal(value: i64, spot: Spot, least: i64, most: i64) -> Result<(), Fault>
    ensures { found result ≡ first_found (literal_faults least most value spot) }
{
    if value < least || most < value {
        return Err(out_of_range(spot));
    }
    Ok(())
}

// A share of a whole note.
fn check_share(whole: u32, over: Number, under: Number) -> Result<(), Fault>
    ensures { found result ≡ first_found (share_faults whole over under) }
{
    if under.value == 0 {
        return Err(out_of_range(over.spot));
    }
    let ticks = u64::from(whole) * u64::from(over.value);
    if ticks % u64::from(under.value) != 0 {
        return Err(Fault {
            why: Why::NotTicks,
            spot: over.spot,
        });
    }
    if u64::from(MAX_TICKS) < ticks / u64::from(under.value) {
        return Err(out_of_range(over.spot));
    }
    Ok(())
}

/// A length, where a whole note has `whole` ticks.
pub(crate) fn check_length(whole: u32, length: Length) -> Result<(), Fault>
    ensures { found result ≡ first_found (length_faults whole length) }
{
    match length {
        Length::Share { over, under } => check_share(whole, over, under),
        Length::Ticks { count } => check_number(count, 0, MAX_TICKS),
    }
}
