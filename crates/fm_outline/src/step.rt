//! A statement.

ghost use Rattle.std.specs.Prelude.{◌≡◌};

use crate::lasting::Lasting;
use crate::needs::Needs;
use crate::quality::Quality;
use fm_lex::Spot;
use fm_program::{Count, Draw, Point};

/// A statement with the spot of its keyword.
#[derive(Drop)]
#[cycle(step)]
pub struct Step {
    pub spot: Spot,
    pub what: Instruction,
    // Found where the statement is made, and by no one else.
    pub(crate) needs: Needs,
}

impl Step {
    /// What it asks of the blocks that are open round it, with all that stands inside it.
    pub fn needs(&self) -> Needs
        ensures { result ≡ self.now.needs }
    {
        self.needs
    }

    /// Whether a `par` stands in it, at any depth, also in a phrase that it names.
    pub fn forks(&self) -> bool
        ensures { result ≡ self.now.needs.forks }
    {
        self.needs.forks
    }
}

/// What a statement says. Expressions, lists, chords and deformations are given by their indices in
/// the tables, phrases by their numbers, all from 0.
#[derive(Drop)]
#[cycle(step)]
pub enum Instruction {
    Note {
        chord: u32,
        lasting: Lasting,
    },
    Rest {
        lasting: Lasting,
    },
    Send {
        point: Point,
        draw: Draw,
    },
    Set {
        register: u8,
        expr: u32,
    },
    /// A missing `else` is an empty list.
    Choice {
        expr: u32,
        yes: Vec<Step>,
        no: Vec<Step>,
    },
    Loop {
        count: Count,
        body: Vec<Step>,
    },
    /// No number: a phrase without statements.
    Phrase {
        number: Option<u32>,
    },
    Par {
        branches: Vec<Vec<Step>>,
    },
    Warp {
        number: u32,
        body: Vec<Step>,
    },
    Channel {
        number: u8,
        body: Vec<Step>,
    },
    /// One entry for all notes inside.
    Steady {
        quality: Quality,
        entry: u32,
        body: Vec<Step>,
    },
    Under {
        quality: Quality,
        list: u32,
        body: Vec<Step>,
    },
}
