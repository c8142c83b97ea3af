//! What the large score of every number plays. No code but a law, as the contract of a function
//! that only names the laws below it.
#![tactic(auto)]

mod laws;

pub use laws::large_scores_are_performed;
