//! What the console is told of a task that is done.
use fm_gen::Summary;
use fm_position::Position;

/// What there is to tell of a task that is done.
#[derive(Clone, Copy, Debug, Drop)]
pub enum Told {
    /// Nothing.
    Nothing,
    /// The totals of a large score that was played.
    Totals(Summary),
    /// Where a tick lies.
    Place(Position),
}
