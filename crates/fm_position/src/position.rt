//! A position, and the line that tells it.
ghost use Rattle.std.specs.Prelude.{◌≡◌, ◌+◌, ◌*◌, ◌<◌, ◌≤◌, ◌++◌, length};
ghost use Rattle.std.specs.Fmt.{decimal};
ghost use Rattle.arrayvec.specs.ArrayString.{array_string_len};
ghost use Rattle.fm_position.specs.PositionLine.{found_text, numbers_text, position_text};

use arrayvec::ArrayString;
use fm_locate::Located;
use fm_nest::MAX_LEVELS;
use itoa::Buffer;

/// A line of a position has at most so many bytes.
pub const MAX_LINE: usize = 262;

/// Where a tick of a file lies in the levels that are open where a process starts.
#[derive(Clone, Copy, Debug, PartialEq, Eq)]
pub struct Position {
    /// The number of the process.
    pub process: u32,
    /// How many levels are open where it starts.
    pub depth: u32,
    /// The tick of the file at which it starts.
    pub start: u64,
    /// Where the tick lies in each of those levels.
    pub located: Located,
}

impl Position {
    /// The line `process P levels D start S positions` with a number for each level, the outermost
    /// first, or `process P levels D start S never K` for the level K, counted from 1, that has no
    /// position there. It has its line end.
    pub fn line(&self) -> ArrayString<MAX_LINE>
        ensures { result.bytes ≡ position_text self.now }
    {
        let mut line = ArrayString::new();
        push_entry(&mut line, "process ", u64::from(self.process));
        push_entry(&mut line, " levels ", u64::from(self.depth));
        push_entry(&mut line, " start ", self.start);
        push_found(&mut line, self.depth, self.located);
        line.push('\n');
        line
    }
}

// Appends what was found in so many levels.
fn push_found(line: &mut ArrayString<MAX_LINE>, depth: u32, located: Located)
    requires { array_string_len line.old ≤ 83 }
    ensures bytes { line.new.bytes ≡ line.old.bytes ++ found_text depth located }
    ensures len { array_string_len line.new < MAX_LINE }
{
    match located {
        Located::There { positions } => {
            line.push_str(" positions");
            push_numbers(line, &positions[..(depth as usize).min(MAX_LEVELS)]);
        }
        Located::Never { level } => push_entry(line, " never ", u64::from(level)),
    }
}

// Appends numbers, a blank in front of each.
fn push_numbers(line: &mut ArrayString<MAX_LINE>, numbers: &[u64])
    requires { array_string_len line.old + 21 * length numbers.now ≤ MAX_LINE }
    ensures bytes { line.new.bytes ≡ line.old.bytes ++ numbers_text numbers.now }
    ensures len { array_string_len line.new ≤ array_string_len line.old + 21 * length numbers.now }
{
    for number in numbers {
        push_entry(line, " ", *number);
    }
}

// Appends a word and a number.
fn push_entry(line: &mut ArrayString<MAX_LINE>, word: &str, number: u64)
    requires { array_string_len line.old + length word.now + 20 ≤ MAX_LINE }
    ensures bytes { line.new.bytes ≡ line.old.bytes ++ word.now ++ decimal number }
    ensures len { array_string_len line.new ≤ array_string_len line.old + length word.now + 20 }
{
    line.push_str(word);
    let mut digits = Buffer::new();
    line.push_str(digits.format(number));
}
