//! The tables that statements name.

ghost use Rattle.std.specs.Prelude.{◌≡◌, [], ◌∷◌, ◌++◌, length, IfOk, OnOk};
ghost use Rattle.fm_program.specs.Parts.{expr_nodes};
ghost use Rattle.fm_line.specs.Line.{greatest as greatest_of};
ghost use Rattle.fm_expansion.specs.Numbering.{no_tables, expr_added, list_added};
ghost use Rattle.fm_expansion.specs.Numbering.{rhythm_added, chord_added, warp_added};
ghost use Rattle.fm_outline.specs.View.{tables_view};

use fm_program::Draw;
use fm_value::Expr;
use fm_warp::Warp;
use std::alloc::{AllocError, Global};

/// What a text names, each entry by its index, in the order of the text.
#[derive(Drop)]
pub struct Tables {
    /// Expressions, without the spots of their nodes in the text.
    pub exprs: Vec<Expr>,
    /// Lists of durations in ticks, of articulations in percent, or of velocities.
    pub lists: Vec<Vec<u32>>,
    /// The pitches of notes.
    pub chords: Vec<Vec<Draw>>,
    /// Deformations.
    pub warps: Vec<Warp>,
    /// The greatest entry of all rhythms, in ticks, 0 where there is none.
    pub longest: u32,
}

/// The index of the next entry of a table with so many entries. A table that outgrows `u32` counts
/// as want of memory.
pub(crate) fn next_index(entries: usize) -> Result<u32, AllocError>
    ensures { IfOk result (λ p. p ≡ entries) }
{
    match u32::try_from(entries) {
        Ok(index) => Ok(index),
        Err(_) => Err(AllocError),
    }
}

/// Appends an entry to a list. An entry that finds no room counts as want of memory.
pub(crate) fn append<T: Drop>(list: &mut Vec<T>, entry: T) -> Result<(), AllocError>
    ensures { OnOk result (list.new.items ≡ list.old.items ++ entry ∷ []) }
{
    list.push(entry)?;
    Ok(())
}

// An expression without the spots of its nodes in the text.
fn nodes_alone(alloc: Global, expr: Expr) -> Expr
    ensures nodes { expr_nodes result ≡ expr_nodes expr }
    ensures alone { result.spots.items ≡ [] }
{
    let Expr {
        nodes,
        spots: _spots,
    } = expr;
    Expr {
        nodes,
        spots: Vec::new(alloc),
    }
}

// The greatest of these entries, 0 of none.
fn greatest(entries: &[u32]) -> u32
    ensures { result ≡ greatest_of entries.now }
{
    let mut most = 0u32;
    for entry in entries {
        most = most.max(*entry);
    }
    most
}

impl Tables {
    /// Tables without entries.
    pub(crate) fn new(alloc: Global) -> Tables
        ensures { tables_view result ≡ no_tables }
    {
        Tables {
            exprs: Vec::new(alloc),
            lists: Vec::new(alloc),
            chords: Vec::new(alloc),
            warps: Vec::new(alloc),
            longest: 0,
        }
    }

    /// Appends an expression and gives its index.
    pub(crate) fn add_expr(&mut self, alloc: Global, expr: Expr) -> Result<u32, AllocError>
        ensures at { IfOk result (λ p. p ≡ length (tables_view self.old).exprs) }
        ensures added { OnOk result
            (tables_view self.new ≡ expr_added (expr_nodes expr) (tables_view self.old)) }
    {
        let index = next_index(self.exprs.len())?;
        self.exprs.push(nodes_alone(alloc, expr))?;
        Ok(index)
    }

    /// Appends a list and gives its index.
    pub(crate) fn add_list(&mut self, list: Vec<u32>) -> Result<u32, AllocError>
        ensures at { IfOk result (λ p. p ≡ length (tables_view self.old).lists) }
        ensures added { OnOk result
            (tables_view self.new ≡ list_added list.items (tables_view self.old)) }
    {
        let index = next_index(self.lists.len())?;
        self.lists.push(list)?;
        Ok(index)
    }

    /// Appends a rhythm and gives its index.
    pub(crate) fn add_rhythm(&mut self, list: Vec<u32>) -> Result<u32, AllocError>
        ensures at { IfOk result (λ p. p ≡ length (tables_view self.old).lists) }
        ensures added { OnOk result
            (tables_view self.new ≡ rhythm_added list.items (tables_view self.old)) }
    {
        let longest = self.longest.max(greatest(&list));
        let index = self.add_list(list)?;
        self.longest = longest;
        Ok(index)
    }

    /// Appends a chord and gives its index.
    pub(crate) fn add_chord(&mut self, chord: Vec<Draw>) -> Result<u32, AllocError>
        ensures at { IfOk result (λ p. p ≡ length (tables_view self.old).chords) }
        ensures added { OnOk result
            (tables_view self.new ≡ chord_added chord.items (tables_view self.old)) }
    {
        let index = next_index(self.chords.len())?;
        self.chords.push(chord)?;
        Ok(index)
    }

    /// Appends a deformation and gives its index.
    pub(crate) fn add_warp(&mut self, warp: Warp) -> Result<u32, AllocError>
        ensures at { IfOk result (λ p. p ≡ length (tables_view self.old).warps) }
        ensures added { OnOk result
            (tables_view self.new ≡ warp_added warp (tables_view self.old)) }
    {
        let index = next_index(self.warps.len())?;
        self.warps.push(warp)?;
        Ok(index)
    }
}
