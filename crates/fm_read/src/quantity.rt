//! Variable-length quantities.
ghost use Rattle.std.specs.Prelude.{◌<◌, ◌≤◌, length, IfOk, IfErr};
ghost use Rattle.fm_read.specs.Reading.{Gives, read_quantity, quantity_from};

use crate::fault::{CUT, ReadKind, Stop};

/// The most bytes of a quantity.
const MOST: u8 = 4;

/// A quantity of at most four bytes, which need not be the shortest, and what follows it.
pub fn quantity_of(bytes: &[u8]) -> Result<(u32, &[u8]), Stop>
    ensures read { Gives (λ x. (x.0, x.1.now)) result (read_quantity bytes.now) }
    ensures shorter { IfOk result (λ x. length x.1.now < length bytes.now) }
    ensures within { IfErr result (λ s. s.left ≤ length bytes.now) }
{
    let mut value = 0;
    let mut rest = bytes;
    for _taken in 0..MOST {
        let Some((byte, after)) = rest.split_first() else {
            return Err(CUT);
        };
        value = value * 128 + (*byte % 128) as u32;
        if *byte < 128 {
            return Ok((value, after));
        }
        rest = after;
    }
    Err(Stop {
        kind: ReadKind::BadQuantity,
        left: rest.len() + 1,
    })
}
