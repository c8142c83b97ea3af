//! What a seat knows.
use fm_core::{Due, Floor, Sight, Step};
use fm_msg::Event;
use fm_strand::Plan;
use std::collections::LinkedList;

/// What a seat holds since it was handed a process.
pub struct Hold {
    pub process: u64,
    /// How many events were computed then.
    pub computed: u64,
    /// How many of them were taken.
    pub taken: u64,
    /// The clock then, in ticks.
    pub clock: u64,
    /// Whether the process was at its end then.
    pub was_ended: bool,
    /// Whether its end was recorded since.
    pub recorded: bool,
    /// How many words of its end place were written since.
    pub written: u64,
    /// How many steps it had still to make then.
    pub left: u64,
}

/// What a seat knows of the performance. No value of it is made.
pub struct View {
    pub plan: Plan,
    /// How far events may be computed ahead of the floor, in ticks.
    pub lead: u64,
    /// How many seats the board has.
    pub seats: u64,
    pub number: u64,
    pub holds: Option<Hold>,
    pub sweep: LinkedList<Sight>,
    pub paced: Floor,
    pub heeded: bool,
    pub due: Due,
    pub visited: LinkedList<bool>,
    pub gathered: LinkedList<Event>,
    pub released: u64,
    pub published: Floor,
    pub halted: bool,
}

/// What a seat knows of the run of the core that it is part of. No value of it is made.
pub struct Log {
    /// The steps that it made, in their order.
    pub mine: LinkedList<Step>,
    /// The steps of all seats up to its last one, in their order.
    pub seen: LinkedList<Step>,
    /// Whether its last look found nothing to take.
    pub idle: bool,
}

/// What a seat knows, with each process as it last saw or gave it, and how many seats seat 0 made.
/// No value of it is made.
pub struct Mind {
    pub view: View,
    /// The clock of each process.
    pub known: LinkedList<u64>,
    /// Whether it was at its end.
    pub over: LinkedList<bool>,
    /// How many steps each process has still to make at most, and one more before its birth.
    pub left: LinkedList<u64>,
    /// The last word of a process that it saw.
    pub last: u64,
    /// The process whose word that is, or how many there are where it may be another by now.
    pub at: u64,
    pub made: u64,
    pub log: Log,
    /// The room of an outbox.
    pub room: u64,
}
