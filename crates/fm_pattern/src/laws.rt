//! Laws of cycles and articulations.
ghost use Rattle.std.specs.Prelude.{◌≡◌, ℕ, ◌+◌, ◌*◌, ◌<◌, ◌≤◌, List, length, slice_index};
ghost use Rattle.fm_pattern.specs.Cycle.{entry_at, AreNext};
ghost use Rattle.fm_pattern.specs.NoteEnd.{note_end};

/// Of a list of calls of `next` from the first entry on, the k-th gives the entry at k modulo
/// the list's length.
pub fn kth_next_is_the_entry_at_k()
    ensures { (list results : List ℕ) (last : ℕ) → 0 < length list → AreNext list 0 results last
        → (k : ℕ) → k < length results → slice_index results k ≡ entry_at list k }
{}

/// A note ends after the stated part of its duration, less a fraction of a tick.
pub fn articulations_bound_the_end()
    ensures low { (on duration gate : ℕ)
        → 100 * note_end on duration gate ≤ 100 * on + duration * gate }
    ensures high { (on duration gate : ℕ)
        → 100 * on + duration * gate < 100 * (note_end on duration gate + 1) }
    ensures whole { (on duration : ℕ) → note_end on duration 100 ≡ on + duration }
{}
