//! Lengths and the numbers of lists.

ghost use Rattle.std.specs.Prelude.{◌≡◌, [], length, map, IfOk, OnOk};
ghost use Rattle.fm_pattern.specs.declared.cursor.TheConstants.{MAX_ENTRIES};
ghost use Rattle.fm_grammar.specs.declared.number.Number.{Number};
ghost use Rattle.fm_meaning.specs.Resolve.{length_ticks};
ghost use Rattle.fm_meaning.specs.Ranges.{each_faults, length_faults, length_spot};
ghost use Rattle.fm_expansion.specs.Numbering.{list_added, rhythm_added};
ghost use Rattle.fm_outline.specs.View.{tables_view};

use crate::tables::Tables;
use fm_grammar::{Length, Number};
use fm_rules::ticks;
use std::alloc::{AllocError, Global};

// The entries of a rhythm, which have no fault.
fn lengths(alloc: Global, whole: u32, list: &[Length]) -> Result<Vec<u32>, AllocError>
    requires { each_faults (length_faults whole) length_spot MAX_ENTRIES list.now ≡ [] }
    ensures { IfOk result (λ l. l.items ≡ map (length_ticks whole) list.now) }
{
    let mut entries = Vec::with_capacity(alloc, list.len())?;
    for length in list {
        entries.push(ticks(whole, length))?;
    }
    Ok(entries)
}

// The numbers of a list.
fn numbers(alloc: Global, list: &[Number]) -> Result<Vec<u32>, AllocError>
    ensures { IfOk result (λ l. l.items ≡ map Number.value list.now) }
{
    let mut entries = Vec::with_capacity(alloc, list.len())?;
    for number in list {
        entries.push(number.value)?;
    }
    Ok(entries)
}

/// Appends a rhythm, whose entries have no fault, and gives its index. A whole note has `whole`
/// ticks.
pub(crate) fn add_lengths(
    alloc: Global,
    whole: u32,
    list: &[Length],
    tables: &mut Tables,
) -> Result<u32, AllocError>
    requires { each_faults (length_faults whole) length_spot MAX_ENTRIES list.now ≡ [] }
    ensures at { IfOk result (λ p. p ≡ length (tables_view tables.old).lists) }
    ensures added { OnOk result (tables_view tables.new
        ≡ rhythm_added (map (length_ticks whole) list.now) (tables_view tables.old)) }
{
    let entries = lengths(alloc, whole, list)?;
    tables.add_rhythm(entries)
}

/// Appends a list of numbers and gives its index.
pub(crate) fn add_numbers(
    alloc: Global,
    list: &[Number],
    tables: &mut Tables,
) -> Result<u32, AllocError>
    ensures at { IfOk result (λ p. p ≡ length (tables_view tables.old).lists) }
    ensures added { OnOk result (tables_view tables.new
        ≡ list_added (map Number.value list.now) (tables_view tables.old)) }
{
    let entries = numbers(alloc, list)?;
    tables.add_list(entries)
}
