//! A statement.

use crate::amount::Amount;
use crate::duration::Duration;
use crate::name::Name;
use crate::number::Number;
use crate::opening::Opening;
use crate::pitch::Pitch;
use fm_lex::Spot;
use fm_value::Expr;

/// A statement with the spot of its keyword.
#[derive(Drop)]
#[cycle(item)]
pub struct Item<'s> {
    pub spot: Spot,
    pub what: What<'s>,
}

/// What a statement says. A missing `else` is an empty list.
#[derive(Drop)]
#[cycle(item)]
pub enum What<'s> {
    Note {
        pitches: Vec<Pitch>,
        duration: Duration,
    },
    Play {
        pitches: Vec<Pitch>,
    },
    Rest {
        duration: Duration,
    },
    Skip,
    Control {
        controller: Number,
        amount: Amount,
    },
    Program {
        amount: Amount,
    },
    Bend {
        amount: Amount,
    },
    Set {
        register: u8,
        value: Expr,
    },
    If {
        test: Expr,
        yes: Vec<Item<'s>>,
        no: Vec<Item<'s>>,
    },
    Block {
        opening: Opening<'s>,
        body: Vec<Item<'s>>,
    },
    Do {
        name: Name<'s>,
    },
    Par {
        branches: Vec<Vec<Item<'s>>>,
    },
}
