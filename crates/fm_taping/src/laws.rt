//! The law of what is kept. Its body is empty: the clause is the theorem.
ghost use Rattle.std.specs.Prelude.{◌<◌, List, length};
ghost use Rattle.fm_core.specs.Effects.{Legal};
ghost use Rattle.fm_core.specs.State.{Setting, State};
ghost use Rattle.fm_core.specs.declared.step.Step.{Step};
ghost use Rattle.fm_taping.specs.KeptSteps.{IsKeptOf, PlaysAlike};

/// What is left off a tape does not matter: without the looks of workers, and without steps that
/// leave the state as it was, the steps of a run are a run to the same processes, floor and
/// released events.
pub fn kept_steps_are_a_run()
    ensures { (g : Setting) (h : State) (xs ys : List Step) → 0 < length h.desks → Legal g h xs
        → IsKeptOf g h xs ys → PlaysAlike g h xs ys }
{}
