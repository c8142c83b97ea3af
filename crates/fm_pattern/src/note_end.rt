//! Where a note ends.
ghost use Rattle.std.specs.Prelude.{◌≡◌, ◌≤◌};
ghost use Rattle.fm_pattern.specs.NoteEnd.{note_end};

/// The greatest articulation, in percent of the duration.
pub const MAX_GATE: u32 = 400;

/// The greatest tick at which a note begins: 2^40. A number of this crate, which needs nothing else
/// of one that has it.
pub const MAX_ONSET: u64 = 1_099_511_627_776;

/// Where a note ends that begins at `on`: after `gate` percent of its duration, rounded down to
/// a tick.
pub fn end_of(on: u64, duration: u32, gate: u32) -> u64
    requires on { on ≤ MAX_ONSET }
    requires gate { gate ≤ MAX_GATE }
    ensures { result ≡ note_end on duration gate }
{
    on + u64::from(duration) * u64::from(gate) / 100
}
