//! What holds of all positions that are found. These functions do nothing: the law of each is its
//! contract.

ghost use Rattle.std.specs.Prelude.{◌≡◌, ℕ, ◌<◌, ◌≤◌, ◌↔◌, List, length};
ghost use Rattle.fm_warp.specs.declared.part.Part.{Part};
ghost use Rattle.fm_warp.specs.declared.side.Side.TheVariants.{Onset};
ghost use Rattle.fm_warp.specs.Deformation.{placed};
ghost use Rattle.fm_nest.specs.declared.frame.Frame.{Frame};
ghost use Rattle.fm_locate.specs.Locating.{AreLocated, IsLeastAt, IsNever, IsNeverAt};

use fm_tick::MAX_TICK;

/// A tick is located at one list of positions, or there is a first level that never comes to it,
/// and never both.
pub fn ticks_are_located_once()
    ensures positions { (warps : List (List Part)) (frames : List Frame) (t : ℕ) (xs ys : List ℕ)
        → length xs ≡ length ys → AreLocated warps frames t xs → AreLocated warps frames t ys
        → xs ≡ ys }
    ensures level { (warps : List (List Part)) (frames : List Frame) (t k l : ℕ)
        → IsNeverAt warps frames t k → IsNeverAt warps frames t l → k ≡ l }
    ensures either { (warps : List (List Part)) (frames : List Frame) (t k : ℕ) (xs : List ℕ)
        → AreLocated warps frames t xs → IsNeverAt warps frames t k → ⊥ }
{}

/// A position is not below the least one at where it lies, and that one is always there; the least
/// position at a tick lies there or later; where the last position lies before a tick, each does.
pub fn positions_and_ticks_meet()
    ensures back { (origin : ℕ) (parts : List Part) (x y : ℕ) → x ≤ MAX_TICK
        → IsLeastAt origin parts (placed Onset origin parts x) y → y ≤ x }
    ensures found { (origin : ℕ) (parts : List Part) (x : ℕ) → x ≤ MAX_TICK
        → IsNever origin parts (placed Onset origin parts x) → ⊥ }
    ensures forth { (origin : ℕ) (parts : List Part) (t x : ℕ) → IsLeastAt origin parts t x
        → t ≤ placed Onset origin parts x }
    ensures last { (origin : ℕ) (parts : List Part) (t : ℕ)
        → (placed Onset origin parts MAX_TICK < t) ↔ IsNever origin parts t }
    ensures early { (origin : ℕ) (parts : List Part) (t x : ℕ) → t ≤ origin
        → IsLeastAt origin parts t x → x ≡ 0 }
{}
