//! Comparisons, for all modules: an `assert_eq!` in each test is dear to prove.
use std::alloc::AllocError;
use std::fmt::{Debug, Display};
use std::process::Abort;

// What was found has to be what is wanted.
pub fn same<R: Abort, T: PartialEq + Debug>(rt: &R, found: &T, wanted: &T) {
    assert_eq!(rt; *found, *wanted);
}

// A fault says this.
pub fn says<R: Abort + AllocGlobal, T: Display>(
    rt: &R,
    fault: &T,
    wanted: &str,
) -> Result<(), AllocError> {
    let text = format!(in rt.alloc(); "{fault}")?;
    same(rt, &text.as_str(), &wanted);
    Ok(())
}
