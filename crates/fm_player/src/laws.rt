//! What holds of every player. These functions do nothing: the law of each is its contract.
ghost use Rattle.std.specs.Prelude.{◌≡◌, ℕ, ◌+◌, ◌<◌, ◌≤◌, List, [], ◌∷◌, ◌++◌, All, Some, true, false, length, map, slice_index_or};
ghost use Rattle.fm_msg.specs.Event.{TimedMessage};
ghost use Rattle.fm_line.specs.Line.{ValidLines, line};
ghost use Rattle.fm_program.specs.Parts.{PlanParts, process_program};
ghost use Rattle.fm_program.specs.Process.{plan_lines};
ghost use Rattle.fm_program.specs.Fit.{PartsFit};
ghost use Rattle.fm_line.specs.Sounds.{come_out, is_note_off, numbered};
ghost use Rattle.fm_player.specs.declared.player.Player.{Player};
ghost use Rattle.fm_player.specs.Ahead.{event_sound};
ghost use Rattle.fm_player.specs.Course.{PlaceFits, end_place, first_place, given, meeting_place, start_place};
ghost use Rattle.fm_player.specs.Player.{InCourse, clock_of, next_event, place_reached, rest, steps_left};

/// The line comes out of the sounds that a player gave and has to give, however many steps were
/// made. Its clock is at most the time of each event to come, and the time of the next one where
/// that is no note-off; it is at most the line's end, which it is at the end.
pub fn players_give_their_lines()
    ensures line { (p : PlanParts) (s : Player) → InCourse p s
        → (line (plan_lines p) s.process).events ≡ numbered s.process 0
        (come_out (map event_sound (given p s.process s.made ++ rest p s))
        (line (plan_lines p) s.process).end) }
    ensures next { (p : PlanParts) (s : Player) (e : TimedMessage) → InCourse p s
        → next_event p s ≡ Some e → is_note_off e.msg ≡ false → clock_of p s ≡ e.time }
    ensures later { (p : PlanParts) (s : Player)
        → InCourse p s → All (λ e. clock_of p s ≤ e.time) (rest p s) }
    ensures last { (p : PlanParts) (s : Player)
        → InCourse p s → clock_of p s ≤ (line (plan_lines p) s.process).end }
    ensures ended { (p : PlanParts) (s : Player) → InCourse p s → steps_left p s ≡ 0
        → (rest p s ≡ []) × (clock_of p s ≡ (line (plan_lines p) s.process).end)
        × (place_reached p s ≡ end_place p s.process) }
{}

/// The first process starts at the first place, and each other one where its predecessors' ends
/// meet, which lie in the levels that it starts in.
pub fn processes_start_where_ends_meet()
    ensures root { (p : PlanParts) → PartsFit p → start_place p 0 ≡ first_place }
    ensures meet { (p : PlanParts) (j : ℕ) → PartsFit p → j < length p.programs
        → start_place p j ≡ meeting_place (map (end_place p) (process_program p j).predecessors) }
    ensures levels { (p : PlanParts) (j k : ℕ) → PartsFit p → j < length p.programs
        → k < length (process_program p j).predecessors
        → let end = end_place p (slice_index_or (process_program p j).predecessors k 0) in
        (end.depth ≡ (start_place p j).depth) × (end.origins ≡ (start_place p j).origins) }
{}

/// Each place that a player reaches, and where a process starts and ends, is within the limits:
/// ticks, at most 2^40, in at most eight levels. So a place can be kept in a few words.
pub fn places_fit()
    ensures reached { (p : PlanParts) (s : Player) → InCourse p s → PlaceFits (place_reached p s) }
    ensures start { (p : PlanParts) (j : ℕ) → PartsFit p → j < length p.programs
        → PlaceFits (start_place p j) }
    ensures end { (p : PlanParts) (j : ℕ) → PartsFit p → j < length p.programs
        → PlaceFits (end_place p j) }
{}

/// The lines of a plan are lines that the processes of one piece can have.
pub fn plans_have_valid_lines()
    ensures { (p : PlanParts) → PartsFit p → ValidLines (plan_lines p) }
{}
