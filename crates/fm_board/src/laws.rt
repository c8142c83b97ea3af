//! The laws of a board. Their bodies are empty: the clauses are the theorems.
ghost use Rattle.std.specs.Prelude.{◌≡◌, ℕ, List, [], ◌∷◌, length, slice_index_or};
ghost use mathlib.Core.Option.{some};
ghost use lib.ListN.{get_elem?};
ghost use Rattle.fm_line.specs.Piece.{piece};
ghost use Rattle.fm_core.specs.Effects.{run};
ghost use Rattle.fm_core.specs.Orderly.{IsOrderly};
ghost use Rattle.fm_core.specs.declared.step.Step.{Step};
ghost use Rattle.fm_core.specs.declared.step.Step.TheVariants.{Look, Pace};
ghost use Rattle.fm_progress.specs.NextStep.{next_step};
ghost use Rattle.fm_progress.specs.Progress.{GoesOn};
ghost use Rattle.fm_core.specs.declared.floor.Floor.TheVariants.{Done};
ghost use Rattle.fm_program.specs.Process.{plan_lines};
ghost use Rattle.fm_board.specs.declared.about.About.{About};
ghost use Rattle.fm_board.specs.declared.view.Mind.{Mind};
ghost use Rattle.fm_board.specs.Follows.{Follows, GoesOnBy, LeadsTo};
ghost use Rattle.fm_board.specs.Played.{IsPlayed, IsWhole, PlaysWhole};
ghost use Rattle.fm_board.specs.StandsFor.{StandsForSome, Table, beginning, setting};
ghost use Rattle.fm_board.specs.View.{lines_of};
ghost use Rattle.fm_board.specs.Words.{floor_word};

/// A table that has a first seat stands for one state of the core.
pub fn tables_stand_for_one_state()
    ensures { (a : About) (s : Table) (k : StandsForSome a s) (l : StandsForSome a s) (m : Mind)
        → get_elem? s.views 0 ≡ some m → k.core ≡ l.core }
{}

/// Where one seat has made some steps between two tables, these are allowed one after another from
/// the state of the first table, and lead to the state of the second. The run of the second table
/// is that of the first and these steps. One corner is left: where the first run ends with a
/// release that no seat has seen yet, it may stand behind some of the steps of another seat, which
/// leads to the same state.
pub fn tables_follow_the_core_step_by_step()
    ensures core { (a : About) (s t : Table) (steps : List Step) (k : StandsForSome a s)
        (l : StandsForSome a t) → Follows s t steps → LeadsTo a s t k l steps }
    ensures run { (a : About) (s t : Table) (steps : List Step) (k : StandsForSome a s)
        (l : StandsForSome a t) → Follows s t steps
        → GoesOnBy k.history.steps l.history.steps steps }
{}

/// A pace, or a look of seat 0, that leaves the view of its seat as it was leaves the state of the
/// core as it was.
pub fn views_that_stay_leave_the_core()
    ensures pace { (a : About) (s t : Table) (x : Step) (k : StandsForSome a s)
        (l : StandsForSome a t) (f : Follows s t (x ∷ [])) → x ≡ Pace f.seat
        → f.new.view ≡ f.old.view → l.core ≡ k.core }
    ensures look { (a : About) (s t : Table) (x : Step) (k : StandsForSome a s)
        (l : StandsForSome a t) (f : Follows s t (x ∷ [])) (p : ℕ) → x ≡ Look f.seat p
        → f.seat ≡ 0 → f.new.view ≡ f.old.view → l.core ≡ k.core }
{}

/// Every table stands for an orderly state: what is released is a prefix of the piece, no buffer
/// passes its room, and no event is computed more than the lead past one that is still to come. And
/// some allowed step leaves less to do, or all is released and drained.
pub fn tables_are_orderly_and_never_stuck()
    ensures orderly { (a : About) (s : Table) (k : StandsForSome a s)
        → IsOrderly (setting a) k.core }
    ensures goes_on { (a : About) (s : Table) (k : StandsForSome a s)
        → GoesOn (setting a) k.core (next_step (setting a) k.core) }
{}

/// Once seat 0 has published that all is done and has released every event, a run of the core from
/// the board's beginning, in which its steps are those that it made, has played the whole piece.
pub fn conductors_play_the_whole_piece()
    ensures { (m : Mind) → IsPlayed m → m.view.number ≡ 0 → m.view.published ≡ Done
        → m.view.released ≡ length (piece (lines_of m.view)) → PlaysWhole m }
{}

/// Where word 0 says that all is done, and as many events are released as the piece has, the core
/// is at its end: the run that led to the table has released the whole piece, and every process is
/// drained.
pub fn done_tables_are_at_their_end()
    ensures { (a : About) (s : Table) (k : StandsForSome a s)
        → slice_index_or s.words 0 0 ≡ floor_word Done
        → length k.core.released ≡ length (piece (plan_lines a.plan))
        → IsWhole (setting a) (run (setting a) (beginning a) k.history.steps) }
{}
