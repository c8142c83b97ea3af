//! Names that are defined one after another, and what each stands for.
//!
//! [`Names`] is a table whose latest definition of a name counts. A contract sees it as a function
//! of the name, `named` of `specs/Named`. A look-up takes the logarithm of the number of names.
#![tactic(auto)]

mod bytes;
mod names;

pub use names::Names;
