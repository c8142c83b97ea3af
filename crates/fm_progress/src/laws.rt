//! The laws of progress. Their bodies are empty: the clauses are the theorems.

ghost use Rattle.std.specs.Prelude.{◌≡◌, ℕ, ◌<◌, ◌≤◌, List, length, None};
ghost use Rattle.fm_core.specs.declared.sight.Sight.{Sight};
ghost use Rattle.fm_core.specs.Invariant.{ValidSetting, Sound};
ghost use Rattle.fm_core.specs.Numbers.{any_below};
ghost use Rattle.fm_core.specs.State.{Setting, State};
ghost use Rattle.fm_progress.specs.Left.{Lowerable, changed_in, idle, looks_to, stale_in};
ghost use Rattle.fm_progress.specs.Looks.{IsLeastLooks};
ghost use Rattle.fm_progress.specs.NextStep.{next_step};
ghost use Rattle.fm_progress.specs.Progress.{ComesToEnd, Finished, GoesOn, PlaysAll};

/// In a sound state the chosen step is none exactly where all is released and drained; else it
/// is allowed and leaves less to do. So the chosen steps come to an end.
pub fn never_stuck()
    ensures goes_on { (g : Setting) (h : State) → ValidSetting g → Sound g h
        → GoesOn g h (next_step g h) }
    ensures ends_there { (g : Setting) (h : State) → ValidSetting g → Sound g h → Finished g h
        → next_step g h ≡ None }
    ensures comes_to_end { (g : Setting) (h : State) → ValidSetting g → Sound g h
        → ComesToEnd g h }
{}

/// From the opening, with any number of seats above 0, the chosen steps release the whole piece.
pub fn plays_the_piece()
    ensures { (g : Setting) (seats : ℕ) → ValidSetting g → 0 < seats → PlaysAll g seats }
{}

/// The second number of what is left is 0 exactly where an allowed record or give lowers what
/// is owed.
pub fn idle_is_what_it_says()
    ensures lowers { (g : Setting) (h : State) → ValidSetting g → Sound g h → idle g h ≡ 0
        → Lowerable g h }
    ensures lowered { (g : Setting) (h : State) → ValidSetting g → Sound g h → Lowerable g h
        → idle g h ≡ 0 }
{}

/// A sweep is fresh exactly where each look would enter again what it entered, from what the
/// sweep says of the predecessors alone.
pub fn freshness_needs_no_bounds()
    ensures { (g : Setting) (h : State) → ValidSetting g → Sound g h → (seen : List Sight)
        → length seen ≤ length h.cells
        → any_below (length seen) (stale_in g h seen)
        ≡ any_below (length seen) (changed_in g h seen) }
{}

/// The looks to a process are the least number of looks, each in turn, after which the sweep stands
/// there.
pub fn looks_are_the_least()
    ensures { (seen : List Sight) (t : ℕ) → IsLeastLooks seen t (looks_to (length seen) t) }
{}
