//! Comparisons, for all modules: an `assert_eq!` in each test is dear to prove.
use std::fmt::Debug;
use std::process::Abort;

// What was found has to be what is wanted.
pub fn same<R: Abort, T: PartialEq + Debug>(rt: &R, found: &T, wanted: &T) {
    assert_eq!(rt; *found, *wanted);
}

// The same for a number.
pub fn same_number<R: Abort>(rt: &R, found: u64, wanted: u64) {
    assert_eq!(rt; found, wanted);
}
