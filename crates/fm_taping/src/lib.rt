//! The calls of a board that a crew makes, with the steps that they take kept on a tape.
//!
//! [`Taped`] has the calls of `fm_calls`: it makes each one on a board under the lock of a
//! [`Recorder`], and pushes the step of the core that the call took. What one call leaves on the
//! tape is the clause `kept` of `src/keeping.rt`. That the whole tape is the run is not said, since
//! no clause tells what a lock holds.
#![tactic(auto)]

mod keeping;
mod laws;
mod recorder;
mod taped;

pub use laws::kept_steps_are_a_run;
pub use recorder::Recorder;
pub use taped::Taped;
