//! Reading lists with commas between.

ghost use Rattle.std.specs.Prelude.{◌≡◌, map, [], IfOk};
ghost use Rattle.fm_grammar.specs.View.{pitch_view};
ghost use Rattle.fm_grammar.specs.Spelling.{listed_text, num_text, length_text, pitch_text, part_text};
ghost use Rattle.fm_grammar.specs.Standing.{listed_tree, num_tree, length_tree, pitch_tree, part_tree};
ghost use Rattle.fm_grammar.specs.Rules.{with_commas, pitches as pitch_list, lengths as length_list, numbers as number_list, parts as part_list};
ghost use Rattle.fm_terms.specs.Follow.{FollowsStack, Spelt};

use crate::fault::ParseFault;
use crate::part::read_part;
use crate::pushes::{append, push};
use crate::reader::Reader;
use crate::token::{expect, read_number};
use crate::value::{read_length, read_pitch};
use fm_grammar::{Length, Number, PartText, Pitch};
use fm_lex::Kind;
use std::alloc::Global;

const COMMA: Kind = Kind::Symbol(b',');

/// Reads pitches.
pub fn read_pitches(alloc: Global, r: &mut Reader) -> Result<Vec<Pitch>, ParseFault>
    ensures text { IfOk result (λ list.
        Spelt (listed_text pitch_text) (listed_tree pitch_tree) (map pitch_view list.items)
        r.old r.new) }
    ensures follows { FollowsStack (with_commas pitch_list []) result r.old r.new }
{
    let mut list = Vec::new(alloc);
    let first = read_pitch(alloc, r)?;
    append(&mut list, first)?;
    while r.next_is(COMMA) {
        expect(r, COMMA)?;
        let next = read_pitch(alloc, r)?;
        append(&mut list, next)?;
    }
    Ok(list)
}

/// Reads lengths.
pub fn read_lengths(alloc: Global, r: &mut Reader) -> Result<Vec<Length>, ParseFault>
    ensures text { IfOk result (λ list.
        Spelt (listed_text length_text) (listed_tree length_tree) list.items r.old r.new) }
    ensures follows { FollowsStack (with_commas length_list []) result r.old r.new }
{
    let mut list = Vec::new(alloc);
    let first = read_length(r)?;
    push(&mut list, first)?;
    while r.next_is(COMMA) {
        expect(r, COMMA)?;
        let next = read_length(r)?;
        push(&mut list, next)?;
    }
    Ok(list)
}

/// Reads numbers.
pub fn read_numbers(alloc: Global, r: &mut Reader) -> Result<Vec<Number>, ParseFault>
    ensures text { IfOk result (λ list.
        Spelt (listed_text num_text) (listed_tree num_tree) list.items r.old r.new) }
    ensures follows { FollowsStack (with_commas number_list []) result r.old r.new }
{
    let mut list = Vec::new(alloc);
    let first = read_number(r)?;
    push(&mut list, first)?;
    while r.next_is(COMMA) {
        expect(r, COMMA)?;
        let next = read_number(r)?;
        push(&mut list, next)?;
    }
    Ok(list)
}

/// Reads parts of a shape.
pub fn read_parts(alloc: Global, r: &mut Reader) -> Result<Vec<PartText>, ParseFault>
    ensures text { IfOk result (λ list.
        Spelt (listed_text part_text) (listed_tree part_tree) list.items r.old r.new) }
    ensures follows { FollowsStack (with_commas part_list []) result r.old r.new }
{
    let mut list = Vec::new(alloc);
    let first = read_part(r)?;
    push(&mut list, first)?;
    while r.next_is(COMMA) {
        expect(r, COMMA)?;
        let next = read_part(r)?;
        push(&mut list, next)?;
    }
    Ok(list)
}
