//! Comparisons, for all modules: an `assert_eq!` in each test is dear to prove.
use std::fmt::Debug;
use std::process::Abort;

// What was found has to be what is wanted.
pub fn same<R: Abort, T: PartialEq + Debug>(rt: &R, found: &T, wanted: &T) {
    assert_eq!(rt; *found, *wanted);
}
