//! The laws of the core. Their bodies are empty: the clauses are the theorems.

ghost use Rattle.std.specs.Prelude.{◌≡◌, ℕ, ◌<◌, ◌≤◌, ◌*◌, List, length, map, Bool, true, false};
ghost use Rattle.fm_msg.specs.Event.{TimedMessage};
ghost use Rattle.fm_line.specs.Line.{ValidLines, greatest, line};
ghost use Rattle.fm_line.specs.Piece.{IsPiece, IsPrefix};
ghost use Rattle.fm_core.specs.declared.sight.Sight.{Sight};
ghost use Rattle.fm_core.specs.declared.step.Step.{Step};
ghost use Rattle.fm_core.specs.declared.step.Step.TheVariants.{Give};
ghost use Rattle.fm_core.specs.State.{Setting, State, cell, opening};
ghost use Rattle.fm_core.specs.Steps.{Allowed};
ghost use Rattle.fm_core.specs.Effects.{after, Legal, run};
ghost use Rattle.fm_core.specs.Giving.{MayGive};
ghost use Rattle.fm_core.specs.Invariant.{ValidSetting, Sound};
ghost use Rattle.fm_core.specs.Least.{IsLeastOf};
ghost use Rattle.fm_core.specs.Orderly.{IsOrderly};
ghost use Rattle.fm_core.specs.Sweep.{bound, least};
ghost use Rattle.fm_core.specs.Tags.{is_unborn};

/// The opening is sound for any number of seats above 0, and every allowed step, and so every
/// legal list of steps, keeps a state sound.
pub fn steps_keep_sound()
    ensures opening { (g : Setting) (seats : ℕ) → ValidSetting g → 0 < seats
        → Sound g (opening (length g.lines) seats) }
    ensures step { (g : Setting) (h : State) (s : Step) → ValidSetting g → Sound g h
        → Allowed g h s → Sound g (after g h s) }
    ensures steps { (g : Setting) (h : State) (ss : List Step) → ValidSetting g → Sound g h
        → Legal g h ss → Sound g (run g h ss) }
{}

/// After every legal list of steps from the opening, what is released is a prefix of the piece.
pub fn released_is_a_prefix()
    ensures { (g : Setting) (seats : ℕ) (ss : List Step) (piece : List TimedMessage)
        → ValidSetting g → 0 < seats → Legal g (opening (length g.lines) seats) ss
        → IsPiece g.lines piece
        → IsPrefix (run g (opening (length g.lines) seats) ss).released piece }
{}

/// A sound state is orderly: what is released is a prefix of the piece, no buffer passes its room,
/// and no event is computed more than the lead past one that is still to come.
pub fn sound_states_are_orderly()
    ensures { (g : Setting) (h : State) → ValidSetting g → Sound g h → IsOrderly g h }
{}

/// The gather of a sound state never holds more events than processes times room.
pub fn gather_has_room()
    ensures { (g : Setting) (h : State) → ValidSetting g → Sound g h
        → length h.gather ≤ length h.cells * g.room }
{}

/// A give is allowed exactly where each fact of `MayGive` holds.
pub fn gives_are_allowed()
    ensures facts { (g : Setting) (h : State) (s p t n now : ℕ) (ends : Bool)
        → Allowed g h (Give s p t n now ends) → MayGive g h s p t n now ends }
    ensures back { (g : Setting) (h : State) (s p t n now : ℕ) (ends : Bool)
        → MayGive g h s p t n now ends → Allowed g h (Give s p t n now ends) }
{}

/// The bound of a born process is its clock. With valid lines the bound of an unborn one is the
/// greatest bound of its predecessors.
pub fn bounds_are_told_by_two_equations()
    ensures born { (g : Setting) (h : State) (j : ℕ) → is_unborn (cell h j).tag ≡ false
        → bound g h j ≡ (cell h j).clock }
    ensures unborn { (g : Setting) (h : State) (j : ℕ) → ValidLines g.lines
        → j < length h.cells → is_unborn (cell h j).tag ≡ true
        → bound g h j ≡ greatest (map (bound g h) (line g.lines j).predecessors) }
{}

/// The least pair of a sweep is the clock and the number of a process that was not seen ended, and
/// no other such pair is less. There is none exactly where all were seen ended.
pub fn least_is_the_least_pair()
    ensures { (seen : List Sight) → IsLeastOf seen (least seen) }
{}
