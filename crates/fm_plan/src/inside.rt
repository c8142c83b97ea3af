//! What is open round a statement.
ghost use Rattle.std.specs.Prelude.{◌≡◌, ◌+◌, IfOk};
ghost use Rattle.fm_meaning.specs.Rules.{usual_gate, usual_velocity};
ghost use Rattle.fm_program.specs.declared.op.Turn.TheVariants as turn;
ghost use Rattle.fm_plan.specs.Seen.{span_by, turned};

use fm_outline::{Lasting, Quality};
use fm_program::{Span, Turn};
use std::alloc::AllocError;

/// The articulation of notes outside all lists of articulation, in percent of the duration.
const USUAL_GATE: u32 = 90;

/// The velocity of notes outside all lists of velocities.
const USUAL_VELOCITY: u32 = 64;

/// Where notes take their durations, articulations and velocities from, how many frames are open,
/// the channel, and the scope of expressions by its index in the table.
#[derive(Clone, Copy)]
pub(crate) struct Inside {
    pub(crate) beat: Turn,
    pub(crate) gate: Turn,
    pub(crate) loud: Turn,
    pub(crate) frames: u32,
    pub(crate) channel: u8,
    pub(crate) scope: u32,
}

impl Inside {
    /// Nothing is open.
    pub(crate) fn outermost() -> Inside
        ensures { result ≡ record {
          beat = turn.Steady 0;
          gate = turn.Steady usual_gate;
          loud = turn.Steady usual_velocity;
          frames = 0;
          channel = 0;
          scope = 0;
        } }
    {
        Inside {
            beat: Turn::Steady { value: 0 },
            gate: Turn::Steady { value: USUAL_GATE },
            loud: Turn::Steady {
                value: USUAL_VELOCITY,
            },
            frames: 0,
            channel: 0,
            scope: 0,
        }
    }

    /// Where a duration is found.
    pub(crate) fn span(&self, lasting: Lasting) -> Span
        ensures { result ≡ span_by self.now.beat lasting }
    {
        match lasting {
            Lasting::Ticks { ticks } => Span::Ticks { ticks },
            Lasting::Computed { expr, most } => Span::Drawn { expr, most },
            Lasting::Beat => match self.beat {
                Turn::Steady { value } => Span::Ticks { ticks: value },
                Turn::Cycle { frame } => Span::Cycle { frame },
            },
        }
    }

    /// On another channel.
    pub(crate) fn on_channel(self, channel: u8) -> Inside
        ensures { result ≡ record self { channel = channel } }
    {
        Inside { channel, ..self }
    }

    /// In a round that is written out, with its scope.
    pub(crate) fn in_round(self, scope: u32) -> Inside
        ensures { result ≡ record self { scope = scope } }
    {
        Inside { scope, ..self }
    }

    /// In a loop in a frame, with its scope.
    pub(crate) fn in_loop(self, scope: u32) -> Result<Inside, AllocError>
        ensures { IfOk result (λ r. r ≡ record self { frames = self.frames + 1; scope = scope }) }
    {
        let frames = one_more(self.frames)?;
        Ok(Inside {
            frames,
            scope,
            ..self
        })
    }

    // Where a quality is taken from this turn.
    fn with_turn(self, quality: Quality, taken: Turn) -> Inside
        ensures { result ≡ turned self quality taken }
    {
        match quality {
            Quality::Duration => Inside {
                beat: taken,
                ..self
            },
            Quality::Articulation => Inside {
                gate: taken,
                ..self
            },
            Quality::Loudness => Inside {
                loud: taken,
                ..self
            },
        }
    }

    /// In a list of one entry.
    pub(crate) fn steady(self, quality: Quality, entry: u32) -> Inside
        ensures { result ≡ turned self quality (turn.Steady entry) }
    {
        self.with_turn(quality, Turn::Steady { value: entry })
    }

    /// In a list in a frame.
    pub(crate) fn in_list(self, quality: Quality) -> Result<Inside, AllocError>
        ensures { IfOk result (λ r. r
            ≡ record (turned self quality (turn.Cycle self.frames)) { frames = self.frames + 1 }) }
    {
        let frames = one_more(self.frames)?;
        let inside = self.with_turn(quality, Turn::Cycle { frame: self.frames });
        Ok(Inside { frames, ..inside })
    }
}

// The next number.
fn one_more(n: u32) -> Result<u32, AllocError>
    ensures { IfOk result (λ k. k ≡ n + 1) }
{
    match n.checked_add(1) {
        Some(next) => Ok(next),
        None => Err(AllocError),
    }
}

/// A number of operations, programs or scopes as an index of a table.
pub(crate) fn as_index(n: usize) -> Result<u32, AllocError>
    ensures { IfOk result (λ k. k ≡ n) }
{
    match u32::try_from(n) {
        Ok(index) => Ok(index),
        Err(_) => Err(AllocError),
    }
}
