//! Where a byte stands in a text.

ghost use Rattle.std.specs.Prelude.{◌≡◌, ◌+◌, ◌<◌, ◌^◌, Some};
ghost use Rattle.fm_lex.specs.Bytes.{after_byte, spot_text};

use std::fmt;

/// A place in a text. Lines and columns count from 1, and a column counts bytes.
#[derive(Clone, Copy, Debug, PartialEq, Eq)]
pub struct Spot {
    pub line: u32,
    pub column: u32,
}

pub const START: Spot = Spot { line: 1, column: 1 };

impl Spot {
    /// The spot of the byte that follows `byte`.
    pub fn after(self, byte: u8) -> Spot
        requires line { self.line + 1 < 2 ^ 32 }
        requires column { self.column + 1 < 2 ^ 32 }
        ensures { result ≡ after_byte byte self }
    {
        if byte == b'\n' {
            Spot {
                line: self.line + 1,
                column: 1,
            }
        } else {
            Spot {
                line: self.line,
                column: self.column + 1,
            }
        }
    }
}

/// The line and the column in decimal, with a colon between them.
impl fmt::Display for Spot {
    ghost output = { λ spot. Some (spot_text spot) };

    fn fmt<W: fmt::Write>(&self, f: &mut fmt::Formatter<W>) -> fmt::Result {
        write!(f, "{}:{}", self.line, self.column)
    }
}
