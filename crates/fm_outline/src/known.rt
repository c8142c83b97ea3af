//! The names that are defined before a spot of the text.

ghost use Rattle.std.specs.Prelude.{◌≡◌};
ghost use Rattle.fm_grammar.specs.View.{name_view};
ghost use Rattle.fm_names.specs.Named.{named};
ghost use Rattle.fm_outline.specs.Knows.{new_or_told, number_or_told, shape_index, phrase_number};

use crate::needs::Needs;
use fm_grammar::Name;
use fm_names::Names;
use fm_rules::{CheckFault, Why};

/// What a name stands for.
#[derive(Clone, Copy, Drop)]
pub(crate) enum Meaning {
    /// A shape, by its index in the table of deformations.
    Shape { index: u32 },
    /// A phrase, by its number.
    Phrase { number: u32 },
}

/// The ticks of a whole note, what each name stands for, and, by its number, what a phrase asks.
#[derive(Drop)]
pub(crate) struct Known<'s> {
    pub(crate) whole: u32,
    pub(crate) names: Names<'s, Meaning>,
    pub(crate) needs: Vec<Needs>,
}

impl<'s> Known<'s> {
    /// The index of a shape.
    pub(crate) fn shape(&self, name: &Name) -> Result<u32, CheckFault>
        ensures { result ≡ number_or_told (name_view name.now)
            (shape_index (named self.now.names (name_view name.now).text)) }
    {
        match self.names.get(name.text).copied() {
            Some(Meaning::Shape { index }) => Ok(index),
            _ => Err(CheckFault::Refused {
                why: Why::UnknownName,
                spot: name.spot,
            }),
        }
    }

    /// The number of a phrase.
    pub(crate) fn phrase(&self, name: &Name) -> Result<u32, CheckFault>
        ensures { result ≡ number_or_told (name_view name.now)
            (phrase_number (named self.now.names (name_view name.now).text)) }
    {
        match self.names.get(name.text).copied() {
            Some(Meaning::Phrase { number }) => Ok(number),
            _ => Err(CheckFault::Refused {
                why: Why::UnknownName,
                spot: name.spot,
            }),
        }
    }

    /// A name that may be defined: it stands for nothing.
    pub(crate) fn check_new(&self, name: &Name) -> Result<(), CheckFault>
        ensures { result ≡ new_or_told (name_view name.now)
            (named self.now.names (name_view name.now).text) }
    {
        match self.names.get(name.text) {
            None => Ok(()),
            Some(_) => Err(CheckFault::Refused {
                why: Why::DoubleName,
                spot: name.spot,
            }),
        }
    }
}
