//! Reading the statements without a block, of each of which a maker is told.

ghost use Rattle.std.specs.Prelude.{◌≡◌, true, [], ◌∷◌, ◌++◌, IfOk};
ghost use Rattle.fm_lex.specs.declared.keyword.Keyword.TheVariants.{Note, Play, Rest, Skip, Control, Set, Do};
ghost use Rattle.fm_grammar.specs.Spelling.{stmt_text, sending_word};
ghost use Rattle.fm_grammar.specs.Standing.{sending_tree};
ghost use Rattle.fm_grammar.specs.View.{amount_view, placed};
ghost use Rattle.fm_terms.specs.Follow.{FollowsStack};
ghost use Rattle.fm_parse.specs.Made.{Made};
ghost use Rattle.fm_parse.specs.Statements.{is_plain, stmt_syms, placed_tree};
ghost use Rattle.fm_parse.specs.Sorts.{sending};

use crate::relay::Relay;
use crate::sorts::Sent;
use fm_grammar::{Amount, Maker};
use fm_lex::{Keyword, Kind, Spot};
use fm_terms::{
    ParseFault, expect, read_amount, read_duration, read_expr, read_name, read_number,
    read_pitches, read_register,
};
use std::alloc::Global;

const SEMICOLON: Kind = Kind::Symbol(b';');

const EQUALS: Kind = Kind::Symbol(b'=');

// Reads a note.
fn read_note<'s, M: Maker<'s>>(alloc: Global, w: &mut Relay<'s, M>) -> Result<M::Made, ParseFault>
    ensures text { IfOk result (λ m. Made M.is_made stmt_text placed_tree
        w.old.maker m w.new.maker w.old.rest w.new.rest) }
    ensures follows { FollowsStack (stmt_syms Note) result w.old.rest w.new.rest }
{
    let spot = expect(&mut w.rest, Kind::Keyword(Keyword::Note))?;
    let pitches = read_pitches(alloc, &mut w.rest)?;
    let duration = read_duration(alloc, &mut w.rest)?;
    expect(&mut w.rest, SEMICOLON)?;
    Ok(w.maker.note(alloc, spot, pitches, duration))
}

// Reads a note with the length of the rhythm.
fn read_play<'s, M: Maker<'s>>(alloc: Global, w: &mut Relay<'s, M>) -> Result<M::Made, ParseFault>
    ensures text { IfOk result (λ m. Made M.is_made stmt_text placed_tree
        w.old.maker m w.new.maker w.old.rest w.new.rest) }
    ensures follows { FollowsStack (stmt_syms Play) result w.old.rest w.new.rest }
{
    let spot = expect(&mut w.rest, Kind::Keyword(Keyword::Play))?;
    let pitches = read_pitches(alloc, &mut w.rest)?;
    expect(&mut w.rest, SEMICOLON)?;
    Ok(w.maker.play(alloc, spot, pitches))
}

// Reads a rest.
fn read_rest<'s, M: Maker<'s>>(alloc: Global, w: &mut Relay<'s, M>) -> Result<M::Made, ParseFault>
    ensures text { IfOk result (λ m. Made M.is_made stmt_text placed_tree
        w.old.maker m w.new.maker w.old.rest w.new.rest) }
    ensures follows { FollowsStack (stmt_syms Rest) result w.old.rest w.new.rest }
{
    let spot = expect(&mut w.rest, Kind::Keyword(Keyword::Rest))?;
    let duration = read_duration(alloc, &mut w.rest)?;
    expect(&mut w.rest, SEMICOLON)?;
    Ok(w.maker.rest(alloc, spot, duration))
}

// Reads a rest with the length of the rhythm.
fn read_skip<'s, M: Maker<'s>>(w: &mut Relay<'s, M>) -> Result<M::Made, ParseFault>
    ensures text { IfOk result (λ m. Made M.is_made stmt_text placed_tree
        w.old.maker m w.new.maker w.old.rest w.new.rest) }
    ensures follows { FollowsStack (stmt_syms Skip) result w.old.rest w.new.rest }
{
    let spot = expect(&mut w.rest, Kind::Keyword(Keyword::Skip))?;
    expect(&mut w.rest, SEMICOLON)?;
    Ok(w.maker.skip(spot))
}

// Reads a control change.
fn read_control<'s, M: Maker<'s>>(
    alloc: Global,
    w: &mut Relay<'s, M>,
) -> Result<M::Made, ParseFault>
    ensures text { IfOk result (λ m. Made M.is_made stmt_text placed_tree
        w.old.maker m w.new.maker w.old.rest w.new.rest) }
    ensures follows { FollowsStack (stmt_syms Control) result w.old.rest w.new.rest }
{
    let spot = expect(&mut w.rest, Kind::Keyword(Keyword::Control))?;
    let controller = read_number(&mut w.rest)?;
    let amount = read_amount(alloc, &mut w.rest)?;
    expect(&mut w.rest, SEMICOLON)?;
    Ok(w.maker.control(alloc, spot, controller, amount))
}

// A program change or a pitch bend is told.
fn tell_sent<'s, M: Maker<'s>>(
    alloc: Global,
    maker: &mut M,
    spot: Spot,
    sent: Sent,
    amount: Amount,
) -> M::Made
    ensures { M.is_made maker.old (placed spot (sending_tree (sending sent) (amount_view amount)))
        result maker.new }
{
    match sent {
        Sent::Program => maker.program(alloc, spot, amount),
        Sent::Bend => maker.bend(alloc, spot, amount),
    }
}

// Reads a program change or a pitch bend.
fn read_sent<'s, M: Maker<'s>>(
    alloc: Global,
    w: &mut Relay<'s, M>,
    sent: Sent,
) -> Result<M::Made, ParseFault>
    ensures text { IfOk result (λ m. Made M.is_made stmt_text placed_tree
        w.old.maker m w.new.maker w.old.rest w.new.rest) }
    ensures follows { FollowsStack (stmt_syms (sending_word (sending sent))) result w.old.rest w.new.rest }
{
    let spot = expect(&mut w.rest, Kind::Keyword(sent.word()))?;
    let amount = read_amount(alloc, &mut w.rest)?;
    expect(&mut w.rest, SEMICOLON)?;
    Ok(tell_sent(alloc, &mut w.maker, spot, sent, amount))
}

// Reads the setting of a register.
fn read_set<'s, M: Maker<'s>>(alloc: Global, w: &mut Relay<'s, M>) -> Result<M::Made, ParseFault>
    ensures text { IfOk result (λ m. Made M.is_made stmt_text placed_tree
        w.old.maker m w.new.maker w.old.rest w.new.rest) }
    ensures follows { FollowsStack (stmt_syms Set) result w.old.rest w.new.rest }
{
    let spot = expect(&mut w.rest, Kind::Keyword(Keyword::Set))?;
    let register = read_register(&mut w.rest)?;
    expect(&mut w.rest, EQUALS)?;
    let value = read_expr(alloc, &mut w.rest)?;
    expect(&mut w.rest, SEMICOLON)?;
    Ok(w.maker.set(alloc, spot, register, value))
}

// Reads the call of a phrase.
fn read_do<'s, M: Maker<'s>>(w: &mut Relay<'s, M>) -> Result<M::Made, ParseFault>
    ensures text { IfOk result (λ m. Made M.is_made stmt_text placed_tree
        w.old.maker m w.new.maker w.old.rest w.new.rest) }
    ensures follows { FollowsStack (stmt_syms Do) result w.old.rest w.new.rest }
{
    let spot = expect(&mut w.rest, Kind::Keyword(Keyword::Do))?;
    let name = read_name(&mut w.rest)?;
    expect(&mut w.rest, SEMICOLON)?;
    Ok(w.maker.call(spot, name))
}

/// Reads a statement with this word, which has no block.
pub fn read_plain<'s, M: Maker<'s>>(
    alloc: Global,
    w: &mut Relay<'s, M>,
    word: Keyword,
) -> Result<M::Made, ParseFault>
    requires { is_plain word ≡ true }
    ensures text { IfOk result (λ m. Made M.is_made stmt_text placed_tree
        w.old.maker m w.new.maker w.old.rest w.new.rest) }
    ensures follows { FollowsStack (stmt_syms word) result w.old.rest w.new.rest }
{
    match word {
        Keyword::Note => read_note(alloc, w),
        Keyword::Play => read_play(alloc, w),
        Keyword::Rest => read_rest(alloc, w),
        Keyword::Skip => read_skip(w),
        Keyword::Control => read_control(alloc, w),
        Keyword::Program => read_sent(alloc, w, Sent::Program),
        Keyword::Bend => read_sent(alloc, w, Sent::Bend),
        Keyword::Set => read_set(alloc, w),
        Keyword::Do => read_do(w),
        _ => unreachable!(),
    }
}
