//! What holds of the two quotients at all numbers. These functions do nothing: the law of each is
//! its contract.

ghost use Rattle.std.specs.Prelude.{◌≡◌, ℕ};
ghost use Rattle.fm_tick.specs.Quotient.{IsFlat, IsSloped};

/// The two bounds of a quotient name one number.
pub fn bounds_name_one_number()
    ensures flat { (x s q r : ℕ) → IsFlat x s q → IsFlat x s r → q ≡ r }
    ensures sloped { (x v s0 s1 q r : ℕ) →
        IsSloped x v s0 s1 q → IsSloped x v s0 s1 r → q ≡ r }
{}
