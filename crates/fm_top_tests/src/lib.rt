//! Tests of the command, `fm_top`.
//!
//! They use public calls alone, and stand above the crate that they test, so that its code is not
//! proved once more for them. There is nothing else here.
#![tactic(auto)]

#[cfg(test)]
mod top;
