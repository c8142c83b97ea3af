//! The hook round each time slice of a process.

/// Which end of a time slice a gate is told of.
#[derive(Clone, Copy, Debug, PartialEq, Eq)]
pub enum Moment {
    Begin,
    End,
}

/// A hook that is called at the begin and the end of each time slice.
pub trait Gate {
    /// Takes note of a moment. It promises nothing but that it returns.
    fn pass(&self, actor: u32, process: u32, moment: Moment);
}
