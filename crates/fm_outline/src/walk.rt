//! What is outlined of a score so far.

ghost use Rattle.std.specs.Prelude.{OnOk};
ghost use Rattle.fm_grammar.specs.Score as tree;
ghost use Rattle.fm_grammar.specs.View.{name_view};
ghost use Rattle.fm_outline.specs.Refusal.{Refuses};
ghost use Rattle.fm_outline.specs.Walked.{EntryDone, EntryRefused, PhraseDefined, StepAppended};

use crate::asking::steps_ask;
use crate::known::{Known, Meaning};
use crate::refusal::answered;
use crate::step::Step;
use crate::tables::{Tables, append, next_index};
use fm_grammar::{Name, PartText};
use fm_ranges::check_parts;
use fm_rules::{CheckFault, warp_of};
use std::alloc::{AllocError, Global};

/// What stands before a spot of the text, and what is known there.
#[derive(Drop)]
pub(crate) struct Walk<'s> {
    pub(crate) known: Known<'s>,
    pub(crate) tables: Tables,
    pub(crate) phrases: Vec<Vec<Step>>,
    pub(crate) block: Vec<Step>,
}

impl<'s> Walk<'s> {
    /// Appends a statement that was outlined.
    pub(crate) fn append_step(&mut self, step: Step) -> Result<(), AllocError>
        ensures { OnOk result (StepAppended self.old step self.new) }
    {
        append(&mut self.block, step)
    }

    /// Lets a new name stand for a phrase that was outlined, from here on.
    pub(crate) fn define(&mut self, name: &Name<'s>, steps: Vec<Step>) -> Result<(), AllocError>
        ensures { OnOk result (PhraseDefined self.old (name_view name.now) steps.items self.new) }
    {
        let number = next_index(self.phrases.len())?;
        let needs = steps_ask(&steps);
        append(&mut self.phrases, steps)?;
        append(&mut self.known.needs, needs)?;
        self.known
            .names
            .define(name.text, Meaning::Phrase { number })
    }

    /// Lets a new name stand for a shape from here on.
    pub(crate) fn add_shape(
        &mut self,
        alloc: Global,
        name: &Name<'s>,
        parts: &[PartText],
    ) -> Result<(), CheckFault>
        ensures ok { OnOk result (EntryDone self.old
            (tree.shape (name_view name.now) parts.now) self.new) }
        ensures refused { Refuses result (EntryRefused self.old
            (tree.shape (name_view name.now) parts.now)) }
    {
        self.known.check_new(name)?;
        answered(check_parts(self.known.whole, parts))?;
        let warp = warp_of(alloc, self.known.whole, parts)?;
        let index = self.tables.add_warp(warp)?;
        let shape = Meaning::Shape { index };
        Ok(self.known.names.define(name.text, shape)?)
    }
}
