//! What holds of the bytes of all records. These functions do nothing: the law of each is its
//! contract.

ghost use Rattle.std.specs.Prelude.{◌≡◌, ℕ, List, ◌++◌, Some, None, length};
ghost use Rattle.fm_core.specs.declared.step.Step.{Step};
ghost use Rattle.fm_record.specs.Head.{IsHead, bad_field, head_bytes};
ghost use Rattle.fm_record.specs.Reading.{read};
ghost use Rattle.fm_record.specs.StepBytes.{HasFields, HaveFields, step_bytes, steps_bytes};

/// A step whose fields fit is read back from its bytes, it is the only one that begins them, and
/// steps are the only ones with their bytes.
pub fn steps_are_told_by_their_bytes()
    ensures back { (s : Step) (xs : List ℕ) → HasFields s
        → read (step_bytes s ++ xs) ≡ Some (s, length (step_bytes s)) }
    ensures one { (s t : Step) (xs ys : List ℕ) → HasFields s → HasFields t
        → step_bytes s ++ xs ≡ step_bytes t ++ ys → s ≡ t }
    ensures all { (ss ts : List Step) → HaveFields ss → HaveFields ts
        → steps_bytes ss ≡ steps_bytes ts → ss ≡ ts }
{}

/// What stands before the steps of a record has no field that cannot stand, and the parts of a
/// record are the only ones with its bytes.
pub fn heads_are_told_by_their_bytes()
    ensures back { (seats room lead : ℕ) (text steps : List ℕ) → IsHead seats room lead text
        → bad_field (head_bytes seats room lead text ++ steps) ≡ None }
    ensures one { (s r l a b c : ℕ) (t u xs ys : List ℕ) → IsHead s r l t → IsHead a b c u
        → head_bytes s r l t ++ xs ≡ head_bytes a b c u ++ ys
        → (s ≡ a) × (r ≡ b) × (l ≡ c) × (t ≡ u) × (xs ≡ ys) }
{}
