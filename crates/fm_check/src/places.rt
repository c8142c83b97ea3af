//! Where the statements of a score stand: the first fork in a choice, duration of the rhythm
//! outside each rhythm, index outside its loop, or block inside too many.
//!
//! Each statement says what it asks of the blocks round it. So a score has such a fault exactly
//! where the statements that are played ask for more than nothing, and only then is it searched for.

ghost use Rattle.std.specs.Prelude.{◌≡◌};
ghost use Rattle.fm_rules.specs.Found.{IsFirst};
ghost use Rattle.fm_meaning.specs.Places.{third_walk};
ghost use Rattle.fm_outline.specs.OfScore.{passage_of_outline};
ghost use Rattle.fm_outline.specs.Phrases.{NeedsMarked};

mod found;
mod statement;

use crate::places::found::first_missing;
use crate::places::statement::look_through;
use fm_lex::Spot;
use fm_outline::{Outline, nothing_open, steps_ask};
use fm_rules::Fault;

/// The first fault of the walk: a fork, a duration of the rhythm, an index or a block that stands
/// where it cannot. Phrases that nothing brings in are not looked at, and a fault of a phrase
/// stands at the statement that brings it in.
pub(crate) fn first_place_fault(outline: &Outline) -> Option<Fault>
    requires { NeedsMarked outline.now }
    ensures { IsFirst result (third_walk (passage_of_outline outline.now)) }
{
    let start = Spot { line: 1, column: 1 };
    match first_missing(start, steps_ask(&outline.block), nothing_open()) {
        None => None,
        Some(_) => look_through(&outline.tables, &outline.block, nothing_open()),
    }
}
