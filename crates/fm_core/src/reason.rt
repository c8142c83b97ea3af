//! Why a step is refused.

/// Why a step is refused. Each step tries its reasons in an order of its own.
#[derive(Clone, Copy, Debug, PartialEq, Eq, Drop)]
pub enum Reason {
    /// There is no such seat.
    NoSeat,
    /// There is no such process.
    NoProcess,
    /// The process is neither 0, nor the next of the seat's sweep, nor the last one in it.
    OutOfTurn,
    /// The seat holds a process already.
    Holding,
    /// The process is not to be had by this seat.
    NotClaimable,
    /// The process was started before.
    NotUnborn,
    /// A predecessor, or for a recall the process itself, is not ended.
    PredecessorLive,
    /// The seat does not hold the process in this way.
    NotHeld,
    /// The number taken is not the number that must be taken.
    WrongTake,
    /// More events than are left, or a count that is not the gather's.
    WrongCount,
    /// A computed event lies above the seat's paced floor plus the lead.
    AboveLead,
    /// The outbox would pass the room.
    OverRoom,
    /// The clock falls, or passes the next event or the end.
    WrongClock,
    /// The process is not at its end, was not recorded, or has to stay ended.
    WrongEnd,
    /// The sweep of seat 0 is not complete.
    NotSwept,
    /// What was published before is still due.
    StillDue,
    /// Nothing is due.
    NotDue,
    /// Some process was not visited since the publish.
    NotVisited,
}
