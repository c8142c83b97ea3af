//! What holds of all positions in plans. These functions do nothing: the law of each is its
//! contract.
ghost use Rattle.std.specs.Prelude.{◌≡◌, ℕ, ◌<◌, ◌≤◌, ◌↔◌, List, length};
ghost use Rattle.fm_line.specs.Line.{start};
ghost use Rattle.fm_locate.specs.Locating.{AreLocated, innermost_position};
ghost use Rattle.fm_nest.specs.Nesting.{composed};
ghost use Rattle.fm_position.specs.Levels.{levels_at};
ghost use Rattle.fm_position.specs.Told.{IsLocated};
ghost use Rattle.fm_program.specs.Parts.{PlanParts};
ghost use Rattle.fm_program.specs.Process.{plan_lines};
ghost use Rattle.fm_program.specs.Fit.{PartsFit};
ghost use Rattle.fm_strand.specs.Course.{start_place};
ghost use Rattle.fm_warp.specs.declared.side.Side.TheVariants.{Onset};

/// A tick has one line for a process: it is told once where it lies, or that it never does.
pub fn ticks_are_told_once()
    ensures { (plan : PlanParts) (process tick : ℕ) (a b : List ℕ)
        → IsLocated plan process tick a → IsLocated plan process tick b → a ≡ b }
{}

/// The tick at which a process starts is where its levels put the position at which it starts. So
/// a tick is no later than the start exactly where its position in the innermost level is not
/// behind the one at which the process starts.
pub fn starts_are_positions()
    ensures start { (plan : PlanParts) (process : ℕ)
        → PartsFit plan → process < length plan.programs
        → composed Onset plan.stock.warps (levels_at plan process)
        (start_place plan process).position
        ≡ start (plan_lines plan) process }
    ensures before { (plan : PlanParts) (process tick : ℕ) (positions : List ℕ)
        → PartsFit plan → process < length plan.programs
        → AreLocated plan.stock.warps (levels_at plan process) tick positions
        → (tick ≤ start (plan_lines plan) process)
        ↔ (innermost_position (levels_at plan process) tick positions
        ≤ (start_place plan process).position) }
{}
