//! What a run has come to before another thread runs.
use crate::told::Told;
use fm_program::Plan;
use fm_way::{Performance, Setup};

/// What a run has come to before another thread runs.
#[derive(Drop)]
pub enum Begun {
    /// What was asked for is done, and this is what there is to tell of it.
    Done(Told),
    /// A score was read that several threads play, and its file is to be written.
    File(Playing),
    /// A score was read, and the record of a performance of it is to be put.
    Record(Recording),
}

/// A score that several threads play.
#[derive(Drop)]
pub struct Playing {
    /// The number of the large score that it is, if it is one.
    pub number: Option<u32>,
    /// Its plan, and how it is played.
    pub performance: Performance,
}

/// A score that is played on record.
#[derive(Drop)]
pub struct Recording {
    /// The number of the large score that it is, if it is one.
    pub number: Option<u32>,
    pub text: Vec<u8>,
    pub plan: Plan,
    /// With what it is played.
    pub setup: Setup,
}
