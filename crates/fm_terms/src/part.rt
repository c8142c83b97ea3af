//! Reading a part of a shape.

ghost use Rattle.std.specs.Prelude.{◌≡◌, [], ◌∷◌, IfOk};
ghost use Rattle.fm_lex.specs.declared.kind.Kind.TheVariants.{Keyword as Word};
ghost use Rattle.fm_lex.specs.declared.keyword.Keyword.TheVariants.{Flat, By, Slope, To, Pause, Breath};
ghost use Rattle.fm_grammar.specs.Spelling.{part_text};
ghost use Rattle.fm_grammar.specs.Standing.{part_tree};
ghost use Rattle.fm_grammar.specs.Rules.{one, length, part};
ghost use Rattle.fm_terms.specs.Follow.{FollowsStack, Spelt};
ghost use Rattle.fm_terms.specs.Stretches.{stretch_syms, stretch_text, stretch_tree};

use crate::fault::ParseFault;
use crate::reader::Reader;
use crate::token::{expect, read_number};
use crate::value::read_length;
use fm_grammar::{Number, PartText};
use fm_lex::{Keyword, Kind};

const FLAT: Kind = Kind::Keyword(Keyword::Flat);

const SLOPE: Kind = Kind::Keyword(Keyword::Slope);

const PAUSE: Kind = Kind::Keyword(Keyword::Pause);

const BREATH: Kind = Kind::Keyword(Keyword::Breath);

// A word and a stretch behind it.
fn read_stretch(r: &mut Reader, word: Keyword) -> Result<Number, ParseFault>
    ensures text { IfOk result (λ n. Spelt (stretch_text word) stretch_tree n r.old r.new) }
    ensures follows { FollowsStack (stretch_syms word []) result r.old r.new }
{
    expect(r, Kind::Keyword(word))?;
    let stretch = read_number(r)?;
    Ok(stretch)
}

// A part with one stretch.
fn read_flat(r: &mut Reader) -> Result<PartText, ParseFault>
    ensures text { IfOk result (λ p. Spelt part_text part_tree p r.old r.new) }
    ensures follows { FollowsStack
        (one (Word Flat) ∷ length ∷ stretch_syms By []) result r.old r.new }
{
    expect(r, FLAT)?;
    let length = read_length(r)?;
    let by = read_stretch(r, Keyword::By)?;
    Ok(PartText::Flat { length, by })
}

// A part with a stretch at each end.
fn read_slope(r: &mut Reader) -> Result<PartText, ParseFault>
    ensures text { IfOk result (λ p. Spelt part_text part_tree p r.old r.new) }
    ensures follows { FollowsStack
        (one (Word Slope) ∷ length ∷ stretch_syms By (stretch_syms To [])) result r.old r.new }
{
    expect(r, SLOPE)?;
    let length = read_length(r)?;
    let by = read_stretch(r, Keyword::By)?;
    let to = read_stretch(r, Keyword::To)?;
    Ok(PartText::Slope { length, by, to })
}

// A pause.
fn read_pause(r: &mut Reader) -> Result<PartText, ParseFault>
    ensures text { IfOk result (λ p. Spelt part_text part_tree p r.old r.new) }
    ensures follows { FollowsStack (one (Word Pause) ∷ length ∷ []) result r.old r.new }
{
    expect(r, PAUSE)?;
    let length = read_length(r)?;
    Ok(PartText::Pause { length })
}

// A breath.
fn read_breath(r: &mut Reader) -> Result<PartText, ParseFault>
    ensures text { IfOk result (λ p. Spelt part_text part_tree p r.old r.new) }
    ensures follows { FollowsStack (one (Word Breath) ∷ length ∷ []) result r.old r.new }
{
    expect(r, BREATH)?;
    let length = read_length(r)?;
    Ok(PartText::Breath { length })
}

/// Reads a part.
pub fn read_part(r: &mut Reader) -> Result<PartText, ParseFault>
    ensures text { IfOk result (λ p. Spelt part_text part_tree p r.old r.new) }
    ensures follows { FollowsStack (part ∷ []) result r.old r.new }
{
    if r.next_is(FLAT) {
        return read_flat(r);
    }
    if r.next_is(SLOPE) {
        return read_slope(r);
    }
    if r.next_is(PAUSE) {
        return read_pause(r);
    }
    read_breath(r)
}
