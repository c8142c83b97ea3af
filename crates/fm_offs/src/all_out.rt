//! All that comes out before a sound.
ghost use Rattle.std.specs.Prelude.{◌≡◌, ◌≤◌, ◌++◌, IfOk, OnOk};
ghost use Rattle.fm_line.specs.Sounds.{left_waiting, most_waiting, out_before};
ghost use Rattle.fm_offs.specs.Stack.{off_sounds};

use crate::{NoteOff, Waiting};
use std::alloc::{AllocError, Global};

/// All that comes out before a sound that begins at `tick` and has so many pitches, in order. An
/// error is want of memory.
pub fn let_out(
    alloc: Global,
    waiting: &mut Waiting,
    tick: u64,
    pitches: usize,
) -> Result<Vec<NoteOff>, AllocError>
    requires pitches { pitches ≤ most_waiting }
    ensures out { IfOk result (λ offs.
        off_sounds offs.items ≡ out_before tick pitches waiting.old) }
    ensures left { OnOk result (waiting.new ≡ left_waiting tick pitches waiting.old) }
{
    let mut offs = Vec::new(alloc);
    while let Some(off) = waiting.next(tick, pitches) {
        offs.push(off)?;
    }
    Ok(offs)
}
