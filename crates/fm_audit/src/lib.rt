//! A recorded run checked by one who trusts nobody, and the file of one that passes.
//!
//! [`audit`] takes the steps of a record one by one on a [`Hall`](fm_hall::Hall). Its yes is the
//! theorem: the steps are a run of the scheduling core over these lines to its end, and the sink
//! has the file of their piece (clauses `run` and `written`); its no names the first fault. Where
//! the lines come from, and what a sink is, is left to the caller.
#![tactic(auto)]

mod checked;
mod fault;
mod laws;
mod replay;

pub use checked::audit;
pub use fault::AuditFault;
pub use fm_line::Line;
pub use fm_play::lines;
pub use fm_record::{BadHeader, MAX_RECORD, Reel, Step, Tape, header};
pub use laws::records_have_one_verdict;
