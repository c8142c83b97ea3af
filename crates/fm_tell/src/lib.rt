//! How a run ends: its exit status, and the line on the console where it does not do what it was
//! asked to.
//!
//! `tell` tells the console of a fault in one put, and answers with the status of that fault, or of
//! the console's own. The main clause is that of `tell`: the text is the one of the fault, byte by
//! byte. Which fault a run has is left to its caller.
#![tactic(auto)]

mod run_fault;
mod status;
mod telling;

pub use run_fault::RunFault;
pub use status::{
    CONSOLE_FAULT, DONE, NO_PROCESS, OUT_OF_MEMORY, READ_FAULT, SCORE_REFUSED, WORDS_REFUSED,
    WRITE_FAULT,
};
pub use telling::{say, tell};
