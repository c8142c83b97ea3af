//! The steps of the core.

/// One atomic step of a seat.
#[derive(Clone, Copy, Drop)]
pub enum Step {
    /// The seat sees a process: 0, the next one of its sweep, or the last one in it.
    Look {
        seat: u32,
        process: u32,
    },
    /// The seat takes a process that is at home; seat 0 also one that is full or ended.
    Claim {
        seat: u32,
        process: u32,
    },
    /// The seat starts an unborn process whose predecessors are all ended.
    Start {
        seat: u32,
        process: u32,
    },
    /// The seat notes that the process it holds came to its end.
    Record {
        seat: u32,
        process: u32,
    },
    /// The seat asks where an ended process ended.
    Recall {
        seat: u32,
        process: u32,
    },
    /// The seat gives its process back: `taken` events of the outbox go to the gather,
    /// `computed` new ones join the outbox, and `clock` is the tick that it has come to.
    Give {
        seat: u32,
        process: u32,
        taken: u32,
        computed: u32,
        clock: u64,
        ended: bool,
    },
    /// Seat 0 makes the least pair of its complete sweep the floor, and due.
    Publish,
    /// The seat reads the floor.
    Pace {
        seat: u32,
    },
    /// Seat 0 releases the `count` events that it has gathered.
    Release {
        count: u32,
    },
}
