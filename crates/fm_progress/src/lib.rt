//! That a run of the scheduling core is never stuck, as data and theorems.
//!
//! `specs/Left` says what is left to do, as eight numbers that are compared from the left, and
//! `specs/NextStep` chooses a step by eight rules. The main theorem is the clause `goes_on` of
//! `never_stuck`: in a sound state the chosen step is none exactly where all is released and
//! drained, else it is allowed and leaves less to do. Nothing here runs, and nothing is said of
//! real threads: a scheduler may take other steps.
#![tactic(auto)]

mod laws;

pub use laws::{
    freshness_needs_no_bounds, idle_is_what_it_says, looks_are_the_least, never_stuck,
    plays_the_piece,
};
