//! Reading lengths, amounts, durations and pitches.

ghost use Rattle.std.specs.Prelude.{◌≡◌, pos, ◌-ℤ◌, [], ◌∷◌, ◌++◌, IfOk};
ghost use Rattle.fm_lex.specs.declared.kind.Kind.TheVariants.{Keyword as Word};
ghost use Rattle.fm_lex.specs.declared.keyword.Keyword.TheVariants.{Ticks, Key};
ghost use Rattle.fm_grammar.specs.Score.{literal};
ghost use Rattle.fm_grammar.specs.View.{expr_view, amount_view, duration_view, pitch_view};
ghost use Rattle.fm_grammar.specs.Spelling.{length_text, amount_text, duration_text, pitch_text};
ghost use Rattle.fm_grammar.specs.Standing.{length_tree, amount_tree, duration_tree, pitch_tree};
ghost use Rattle.fm_grammar.specs.Signs.{open_parenthesis, close_parenthesis, minus_sign, slash};
ghost use Rattle.fm_grammar.specs.Rules.{one, any_number, any_pitch, length, amount, duration, pitch, counted, with_most, expr as expr_syms};
ghost use Rattle.fm_terms.specs.Follow.{FollowsStack, Spelt};
ghost use Rattle.fm_terms.specs.Counts.{count_text, count_tree, count_view, timed_view};

use crate::count::Count;
use crate::expr::read_expr;
use crate::fault::ParseFault;
use crate::reader::Reader;
use crate::token::{expect, read_number};
use fm_grammar::{Amount, Duration, Length, Number, Pitch};
use fm_lex::{Keyword, Kind, Spot};
use std::alloc::Global;

const TICKS: Kind = Kind::Keyword(Keyword::Ticks);

const KEY: Kind = Kind::Keyword(Keyword::Key);

const MAX: Kind = Kind::Keyword(Keyword::Max);

const OPENS: Kind = Kind::Symbol(b'(');

const CLOSES: Kind = Kind::Symbol(b')');

const MINUS: Kind = Kind::Symbol(b'-');

const SLASH: Kind = Kind::Symbol(b'/');

// A share of a whole note.
fn read_share(r: &mut Reader) -> Result<Length, ParseFault>
    ensures text { IfOk result (λ l. Spelt length_text length_tree l r.old r.new) }
    ensures follows { FollowsStack (one any_number ∷ one slash ∷ one any_number ∷ [])
        result r.old r.new }
{
    let over = read_number(r)?;
    expect(r, SLASH)?;
    let under = read_number(r)?;
    Ok(Length::Share { over, under })
}

// A number of ticks.
fn read_ticks(r: &mut Reader) -> Result<Length, ParseFault>
    ensures text { IfOk result (λ l. Spelt length_text length_tree l r.old r.new) }
    ensures follows { FollowsStack (one (Word Ticks) ∷ one any_number ∷ []) result r.old r.new }
{
    expect(r, TICKS)?;
    let count = read_number(r)?;
    Ok(Length::Ticks { count })
}

/// Reads a length.
pub fn read_length(r: &mut Reader) -> Result<Length, ParseFault>
    ensures text { IfOk result (λ l. Spelt length_text length_tree l r.old r.new) }
    ensures follows { FollowsStack (length ∷ []) result r.old r.new }
{
    if r.next_is(TICKS) {
        return read_ticks(r);
    }
    read_share(r)
}

// A literal without a sign.
fn literal_of(number: Number) -> Amount
    ensures { amount_view result ≡ literal (pos number.value) number.spot }
{
    Amount::Literal {
        value: i64::from(number.value),
        spot: number.spot,
    }
}

// A literal with a minus, which stands at the spot.
fn negative_of(number: Number, spot: Spot) -> Amount
    ensures { amount_view result ≡ literal (pos 0 -ℤ pos number.value) spot }
{
    Amount::Literal {
        value: -i64::from(number.value),
        spot,
    }
}

// A literal with a minus.
fn read_negative(r: &mut Reader) -> Result<Amount, ParseFault>
    ensures text { IfOk result (λ a. Spelt amount_text amount_tree (amount_view a) r.old r.new) }
    ensures follows { FollowsStack (one minus_sign ∷ one any_number ∷ []) result r.old r.new }
{
    let spot = expect(r, MINUS)?;
    let number = read_number(r)?;
    Ok(negative_of(number, spot))
}

// An amount that an expression gives.
fn read_computed(alloc: Global, r: &mut Reader) -> Result<Amount, ParseFault>
    ensures text { IfOk result (λ a. Spelt amount_text amount_tree (amount_view a) r.old r.new) }
    ensures follows { FollowsStack (one open_parenthesis ∷ expr_syms (one close_parenthesis ∷ []))
        result r.old r.new }
{
    expect(r, OPENS)?;
    let value = read_expr(alloc, r)?;
    expect(r, CLOSES)?;
    Ok(Amount::Computed { value })
}

// A literal without a sign.
fn read_literal(r: &mut Reader) -> Result<Amount, ParseFault>
    ensures text { IfOk result (λ a. Spelt amount_text amount_tree (amount_view a) r.old r.new) }
    ensures follows { FollowsStack (one any_number ∷ []) result r.old r.new }
{
    let number = read_number(r)?;
    Ok(literal_of(number))
}

/// Reads an amount.
pub fn read_amount(alloc: Global, r: &mut Reader) -> Result<Amount, ParseFault>
    ensures text { IfOk result (λ a. Spelt amount_text amount_tree (amount_view a) r.old r.new) }
    ensures follows { FollowsStack (amount ∷ []) result r.old r.new }
{
    if r.next_is(MINUS) {
        return read_negative(r);
    }
    if r.next_is(OPENS) {
        return read_computed(alloc, r);
    }
    read_literal(r)
}

// A count that an expression gives, and its greatest value.
fn read_drawn(alloc: Global, r: &mut Reader) -> Result<Count, ParseFault>
    ensures text { IfOk result (λ n. Spelt count_text count_tree (count_view n) r.old r.new) }
    ensures follows { FollowsStack (one open_parenthesis ∷ with_most []) result r.old r.new }
{
    expect(r, OPENS)?;
    let value = read_expr(alloc, r)?;
    expect(r, CLOSES)?;
    expect(r, MAX)?;
    let most = read_number(r)?;
    Ok(Count::Drawn { value, most })
}

// A count that stands there.
fn read_fixed(r: &mut Reader) -> Result<Count, ParseFault>
    ensures text { IfOk result (λ n. Spelt count_text count_tree (count_view n) r.old r.new) }
    ensures follows { FollowsStack (one any_number ∷ []) result r.old r.new }
{
    let number = read_number(r)?;
    Ok(Count::Fixed { number })
}

/// Reads a count.
pub fn read_count(alloc: Global, r: &mut Reader) -> Result<Count, ParseFault>
    ensures text { IfOk result (λ n. Spelt count_text count_tree (count_view n) r.old r.new) }
    ensures follows { FollowsStack (counted ∷ []) result r.old r.new }
{
    if r.next_is(OPENS) {
        return read_drawn(alloc, r);
    }
    read_fixed(r)
}

// A duration in ticks.
fn read_timed(alloc: Global, r: &mut Reader) -> Result<Duration, ParseFault>
    ensures text { IfOk result
        (λ d. Spelt duration_text duration_tree (duration_view d) r.old r.new) }
    ensures follows { FollowsStack (one (Word Ticks) ∷ counted ∷ []) result r.old r.new }
{
    expect(r, TICKS)?;
    let ticks = read_count(alloc, r)?;
    Ok(duration_of(ticks))
}

// A duration of so many ticks.
fn duration_of(ticks: Count) -> Duration
    ensures { duration_view result ≡ timed_view (count_view ticks) }
{
    match ticks {
        Count::Fixed { number } => Duration::Fixed {
            length: Length::Ticks { count: number },
        },
        Count::Drawn { value, most } => Duration::Computed { value, most },
    }
}

// A duration as a share of a whole note.
fn read_shared(r: &mut Reader) -> Result<Duration, ParseFault>
    ensures text { IfOk result
        (λ d. Spelt duration_text duration_tree (duration_view d) r.old r.new) }
    ensures follows { FollowsStack (one any_number ∷ one slash ∷ one any_number ∷ [])
        result r.old r.new }
{
    let length = read_share(r)?;
    Ok(Duration::Fixed { length })
}

/// Reads a duration.
pub fn read_duration(alloc: Global, r: &mut Reader) -> Result<Duration, ParseFault>
    ensures text { IfOk result
        (λ d. Spelt duration_text duration_tree (duration_view d) r.old r.new) }
    ensures follows { FollowsStack (duration ∷ []) result r.old r.new }
{
    if r.next_is(TICKS) {
        return read_timed(alloc, r);
    }
    read_shared(r)
}

// A pitch by a value.
fn read_key(alloc: Global, r: &mut Reader) -> Result<Pitch, ParseFault>
    ensures text { IfOk result (λ p. Spelt pitch_text pitch_tree (pitch_view p) r.old r.new) }
    ensures follows { FollowsStack (one (Word Key) ∷ amount ∷ []) result r.old r.new }
{
    let spot = expect(r, KEY)?;
    let amount = read_amount(alloc, r)?;
    Ok(Pitch::Key { amount, spot })
}

// A pitch by its name.
fn read_named(r: &mut Reader) -> Result<Pitch, ParseFault>
    ensures text { IfOk result (λ p. Spelt pitch_text pitch_tree (pitch_view p) r.old r.new) }
    ensures follows { FollowsStack (one any_pitch ∷ []) result r.old r.new }
{
    let token = r.peek();
    let Kind::Pitch(key) = token.kind else {
        return Err(ParseFault::Expected { spot: token.spot });
    };
    r.advance()?;
    Ok(Pitch::Named {
        key,
        spot: token.spot,
    })
}

/// Reads a pitch.
pub fn read_pitch(alloc: Global, r: &mut Reader) -> Result<Pitch, ParseFault>
    ensures text { IfOk result (λ p. Spelt pitch_text pitch_tree (pitch_view p) r.old r.new) }
    ensures follows { FollowsStack (pitch ∷ []) result r.old r.new }
{
    if r.next_is(KEY) {
        return read_key(alloc, r);
    }
    read_named(r)
}
