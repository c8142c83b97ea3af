//! What is said of a performance.
ghost use Rattle.std.specs.Prelude.{◌≡◌, ◌+◌, ◌<◌, ◌≤◌, [], ◌∷◌, ◌++◌, length};
ghost use Rattle.std.specs.Fmt.{decimal};
ghost use Rattle.arrayvec.specs.ArrayString.{array_string_len};

use arrayvec::ArrayString;

/// The most bytes of the line of a summary.
pub const MAX_SUMMARY: usize = 112;

/// The totals of a performance.
#[derive(Clone, Copy, Debug, PartialEq, Eq)]
pub struct Summary {
    /// How many processes the score has.
    pub processes: u32,
    /// How many events were played.
    pub events: u64,
    /// The tick of the End of Track.
    pub last: u64,
    /// The length of the file in bytes.
    pub bytes: u64,
}

impl Summary {
    ghost use Rattle.fm_gen.specs.SummaryLine.{summary_line};

    /// The line `processes P events E last T bytes B`, with its line end. It takes no memory.
    pub fn line(&self) -> ArrayString<MAX_SUMMARY>
        ensures { result.bytes ≡ summary_line self.now }
    {
        let mut line = ArrayString::new();
        push_entry(&mut line, "processes ", u64::from(self.processes));
        push_entry(&mut line, " events ", self.events);
        push_entry(&mut line, " last ", self.last);
        push_entry(&mut line, " bytes ", self.bytes);
        line.push('\n');
        line
    }
}

// Appends a word and a number.
#[tactic(auto, using(crate::proofs::DigitLemmas::decimal_short))]
fn push_entry(line: &mut ArrayString<MAX_SUMMARY>, word: &str, number: u64)
    requires { array_string_len line.old + length word.now + 20 ≤ MAX_SUMMARY }
    ensures bytes { line.new.bytes ≡ line.old.bytes ++ word.now ++ decimal number }
    ensures len { array_string_len line.new ≤ array_string_len line.old + length word.now + 20 }
{
    line.push_str(word);
    push_number(line, number);
}

// Appends the digits of a number.
#[tactic(auto, using(crate::proofs::DigitLemmas::digit_steps))]
fn push_number(line: &mut ArrayString<MAX_SUMMARY>, number: u64)
    requires { array_string_len line.old + length (decimal number) ≤ MAX_SUMMARY }
    ensures { line.new.bytes ≡ line.old.bytes ++ decimal number }
{
    if number < 10 {
        push_digit(line, number as u8);
    } else {
        push_number(line, number / 10);
        push_digit(line, (number % 10) as u8);
    }
}

// Appends one digit.
fn push_digit(line: &mut ArrayString<MAX_SUMMARY>, digit: u8)
    requires room { array_string_len line.old < MAX_SUMMARY }
    requires digit { digit < 10 }
    ensures { line.new.bytes ≡ line.old.bytes ++ (48 + digit) ∷ [] }
{
    line.push(char::from(b'0' + digit));
}
