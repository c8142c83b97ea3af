//! How many processes each seat holds.
ghost use Rattle.std.specs.Prelude.{◌≡◌, ℕ, ◌+◌, ◌^◌, ◌<◌, ◌≤◌, length, slice_index_or};
ghost use Rattle.fm_state.specs.Stored.{hold};

use fm_core::Cell;

/// Where a seat held this process, it holds one less.
pub fn end_hold(holds: &mut Vec<u32>, own: Cell)
    requires { (s : ℕ) → s < length holds.old.items
        → hold s own ≤ slice_index_or holds.old.items s 0 }
    ensures counts { (s : ℕ) → s < length holds.old.items
        → slice_index_or holds.new.items s 0 + hold s own ≡ slice_index_or holds.old.items s 0 }
    ensures seats { length holds.new.items ≡ length holds.old.items }
{
    let seat = own.seat as usize;
    if own.tag.is_held() && seat < holds.len() {
        holds[seat] -= 1;
    }
}

/// Where a seat holds this process, it holds one more.
pub fn begin_hold(holds: &mut Vec<u32>, own: Cell)
    requires { (s : ℕ) → s < length holds.old.items
        → slice_index_or holds.old.items s 0 + hold s own < 2 ^ 32 }
    ensures counts { (s : ℕ) → s < length holds.old.items
        → slice_index_or holds.new.items s 0 ≡ slice_index_or holds.old.items s 0 + hold s own }
    ensures seats { length holds.new.items ≡ length holds.old.items }
{
    let seat = own.seat as usize;
    if own.tag.is_held() && seat < holds.len() {
        holds[seat] += 1;
    }
}
