//! Reading expressions. Each function is given how many tokens of the outermost expression stand
//! before its own, and how many must follow them, and answers how many stand before what follows.

ghost use Rattle.std.specs.Prelude.{◌≡◌, ◌≢◌, ℕ, ◌+◌, ◌<◌, ◌≤◌, List, [], ◌∷◌, ◌++◌, Option, IfOk, OnOk};
ghost use Rattle.fm_lex.specs.declared.kind.Kind.TheVariants.{Symbol, Keyword as Word};
ghost use Rattle.fm_lex.specs.declared.keyword.Keyword.TheVariants.{Pick};
ghost use Rattle.fm_lex.specs.declared.kind.Kind.{Kind as TheKind};
ghost use Rattle.fm_grammar.specs.Reads.{Fault};
ghost use Rattle.fm_grammar.specs.View.{expr_view};
ghost use Rattle.fm_grammar.specs.Spelling.{expr_text, factor_text, terms_text, sums_text};
ghost use Rattle.fm_grammar.specs.Standing.{expr_nodes, factor_nodes, terms_nodes, sums_nodes, expr_tree};
ghost use Rattle.fm_grammar.specs.Rules.{Sym, one, factor, terms, sums, expr as expr_syms, two_exprs};
ghost use Rattle.fm_terms.specs.Reader.{first_kind};
ghost use Rattle.fm_terms.specs.Follow.{At, Leads, FollowsInside, IsMark, Marked, Opens, Spelt};
ghost use Rattle.fm_terms.specs.Drafts.{Drafted, IsComparing, IsPlain, pair_text, pair_nodes};

use crate::fault::ParseFault;
use crate::operators::{adding_of, leaf_of, scaling_of};
use crate::pushes::push_node;
use crate::reader::Reader;
use crate::token::{check_limit, expect};
use fm_lex::{Keyword, Kind, Spot};
use fm_value::{Expr, Node};
use std::alloc::Global;

/// The most tokens of an outermost expression.
const MAX_TOKENS: u32 = 64;

const MINUS: Kind = Kind::Symbol(b'-');

const OPENS: Kind = Kind::Symbol(b'(');

const CLOSES: Kind = Kind::Symbol(b')');

const COMMA: Kind = Kind::Symbol(b',');

// Takes the token of a kind, which comes first, where the expression may have so many tokens.
fn expect_within(r: &mut Reader, kind: Kind, needed: u32) -> Result<Spot, ParseFault>
    requires mark { IsMark kind }
    requires first { first_kind r.old ≡ kind }
    ensures within { OnOk result (needed ≤ 64) }
    ensures text { IfOk result (λ s. Marked kind s r.old r.new) }
    ensures follows { (whole : Option Fault) (used : ℕ) (below : List Sym)
        → Opens whole used kind below needed r.old → Leads whole (used + 1) below result r.new }
{
    check_limit(r, needed, MAX_TOKENS)?;
    expect(r, kind)
}

// A number, a register or an index.
fn read_leaf(r: &mut Reader, draft: &mut Expr, used: u32, owed: u32) -> Result<u32, ParseFault>
    requires room { used + 1 + owed ≤ 64 }
    requires plain { IsPlain (first_kind r.old) }
    ensures room { IfOk result (λ n. n + owed ≤ 64) }
    ensures more { IfOk result (λ n. used < n) }
    ensures text { IfOk result (λ _.
        Drafted factor_text factor_nodes (expr_view draft.old) (expr_view draft.new) r.old r.new) }
    ensures follows { FollowsInside (factor ∷ []) used owed result r.old r.new }
{
    let token = r.peek();
    let Some(node) = leaf_of(token.kind) else {
        return Err(ParseFault::Expected { spot: token.spot });
    };
    r.advance()?;
    push_node(draft, node, token.spot)?;
    Ok(used + 1)
}

// A minus and a factor.
#[cycle(expr)]
fn read_negated(r: &mut Reader, draft: &mut Expr, used: u32, owed: u32) -> Result<u32, ParseFault>
    requires room { used + 1 + owed ≤ 64 }
    requires first { first_kind r.old ≡ Symbol 45 }
    ensures room { IfOk result (λ n. n + owed ≤ 64) }
    ensures more { IfOk result (λ n. used < n) }
    ensures text { IfOk result (λ _.
        Drafted factor_text factor_nodes (expr_view draft.old) (expr_view draft.new) r.old r.new) }
    ensures follows { FollowsInside (factor ∷ []) used owed result r.old r.new }
{
    let minus = expect_within(r, MINUS, used + 2 + owed)?;
    let count = read_factor(r, draft, used + 1, owed)?;
    push_node(draft, Node::Negate, minus)?;
    Ok(count)
}

// An expression in parentheses.
#[cycle(expr)]
fn read_group(r: &mut Reader, draft: &mut Expr, used: u32, owed: u32) -> Result<u32, ParseFault>
    requires room { used + 1 + owed ≤ 64 }
    requires first { first_kind r.old ≡ Symbol 40 }
    ensures room { IfOk result (λ n. n + owed ≤ 64) }
    ensures more { IfOk result (λ n. used < n) }
    ensures text { IfOk result (λ _.
        Drafted factor_text factor_nodes (expr_view draft.old) (expr_view draft.new) r.old r.new) }
    ensures follows { FollowsInside (factor ∷ []) used owed result r.old r.new }
{
    expect_within(r, OPENS, used + 3 + owed)?;
    let count = read_inner(r, draft, used + 1, owed + 1)?;
    expect(r, CLOSES)?;
    Ok(count + 1)
}

// A draw.
#[cycle(expr)]
fn read_pick(r: &mut Reader, draft: &mut Expr, used: u32, owed: u32) -> Result<u32, ParseFault>
    requires room { used + 1 + owed ≤ 64 }
    requires first { first_kind r.old ≡ Word Pick }
    ensures room { IfOk result (λ n. n + owed ≤ 64) }
    ensures more { IfOk result (λ n. used < n) }
    ensures text { IfOk result (λ _.
        Drafted factor_text factor_nodes (expr_view draft.old) (expr_view draft.new) r.old r.new) }
    ensures follows { FollowsInside (factor ∷ []) used owed result r.old r.new }
{
    let word = expect_within(r, Kind::Keyword(Keyword::Pick), used + 4 + owed)?;
    expect(r, OPENS)?;
    let count = read_inner(r, draft, used + 2, owed + 1)?;
    expect(r, CLOSES)?;
    push_node(draft, Node::Pick, word)?;
    Ok(count + 1)
}

// Two expressions in parentheses.
#[cycle(expr)]
fn read_two(r: &mut Reader, draft: &mut Expr, used: u32, owed: u32) -> Result<u32, ParseFault>
    requires { used + 5 + owed ≤ 64 }
    ensures room { IfOk result (λ n. n + owed ≤ 64) }
    ensures more { IfOk result (λ n. used < n) }
    ensures text { IfOk result (λ _.
        Drafted pair_text pair_nodes (expr_view draft.old) (expr_view draft.new) r.old r.new) }
    ensures follows { FollowsInside two_exprs used owed result r.old r.new }
{
    expect(r, OPENS)?;
    let first = read_inner(r, draft, used + 1, owed + 3)?;
    expect(r, COMMA)?;
    let second = read_inner(r, draft, first + 1, owed + 1)?;
    expect(r, CLOSES)?;
    Ok(second + 1)
}

// A word and the two expressions that it compares.
#[cycle(expr)]
fn read_compared(
    r: &mut Reader,
    draft: &mut Expr,
    word: Keyword,
    node: Node,
    used: u32,
    owed: u32,
) -> Result<u32, ParseFault>
    requires room { used + 1 + owed ≤ 64 }
    requires first { first_kind r.old ≡ Word word }
    requires compares { IsComparing word node }
    ensures room { IfOk result (λ n. n + owed ≤ 64) }
    ensures more { IfOk result (λ n. used < n) }
    ensures text { IfOk result (λ _.
        Drafted factor_text factor_nodes (expr_view draft.old) (expr_view draft.new) r.old r.new) }
    ensures follows { FollowsInside (factor ∷ []) used owed result r.old r.new }
{
    let spot = expect_within(r, Kind::Keyword(word), used + 6 + owed)?;
    let count = read_two(r, draft, used + 1, owed)?;
    push_node(draft, node, spot)?;
    Ok(count)
}

// A word with its arguments.
#[cycle(expr)]
fn read_function(
    r: &mut Reader,
    draft: &mut Expr,
    word: Keyword,
    used: u32,
    owed: u32,
) -> Result<u32, ParseFault>
    requires room { used + 1 + owed ≤ 64 }
    requires first { first_kind r.old ≡ Word word }
    ensures room { IfOk result (λ n. n + owed ≤ 64) }
    ensures more { IfOk result (λ n. used < n) }
    ensures text { IfOk result (λ _.
        Drafted factor_text factor_nodes (expr_view draft.old) (expr_view draft.new) r.old r.new) }
    ensures follows { FollowsInside (factor ∷ []) used owed result r.old r.new }
{
    match word {
        Keyword::Pick => read_pick(r, draft, used, owed),
        Keyword::Min => read_compared(r, draft, word, Node::Min, used, owed),
        Keyword::Max => read_compared(r, draft, word, Node::Max, used, owed),
        Keyword::Less => read_compared(r, draft, word, Node::Less, used, owed),
        Keyword::Same => read_compared(r, draft, word, Node::Same, used, owed),
        _ => Err(ParseFault::Expected {
            spot: r.peek().spot,
        }),
    }
}

// A factor.
#[cycle(expr)]
fn read_factor(r: &mut Reader, draft: &mut Expr, used: u32, owed: u32) -> Result<u32, ParseFault>
    requires { used + 1 + owed ≤ 64 }
    ensures room { IfOk result (λ n. n + owed ≤ 64) }
    ensures more { IfOk result (λ n. used < n) }
    ensures text { IfOk result (λ _.
        Drafted factor_text factor_nodes (expr_view draft.old) (expr_view draft.new) r.old r.new) }
    ensures follows { FollowsInside (factor ∷ []) used owed result r.old r.new }
{
    if r.next_is(MINUS) {
        return read_negated(r, draft, used, owed);
    }
    if r.next_is(OPENS) {
        return read_group(r, draft, used, owed);
    }
    match r.peek().kind {
        Kind::Keyword(word) => read_function(r, draft, word, used, owed),
        _ => read_leaf(r, draft, used, owed),
    }
}

// The operators between factors, and the factors behind them.
#[cycle(expr)]
fn read_terms(r: &mut Reader, draft: &mut Expr, used: u32, owed: u32) -> Result<u32, ParseFault>
    requires { used + owed ≤ 64 }
    ensures room { IfOk result (λ n. n + owed ≤ 64) }
    ensures more { IfOk result (λ n. used ≤ n) }
    ensures text { IfOk result (λ _.
        Drafted terms_text terms_nodes (expr_view draft.old) (expr_view draft.new) r.old r.new) }
    ensures follows { FollowsInside (terms ∷ []) used owed result r.old r.new }
{
    let token = r.peek();
    let Some(node) = scaling_of(token.kind) else {
        return Ok(used);
    };
    let spot = expect_within(r, token.kind, used + 2 + owed)?;
    let first = read_factor(r, draft, used + 1, owed)?;
    push_node(draft, node, spot)?;
    read_terms(r, draft, first, owed)
}

// The operators between terms, and the terms behind them.
#[cycle(expr)]
fn read_sums(r: &mut Reader, draft: &mut Expr, used: u32, owed: u32) -> Result<u32, ParseFault>
    requires { used + owed ≤ 64 }
    ensures room { IfOk result (λ n. n + owed ≤ 64) }
    ensures more { IfOk result (λ n. used ≤ n) }
    ensures text { IfOk result (λ _.
        Drafted sums_text sums_nodes (expr_view draft.old) (expr_view draft.new) r.old r.new) }
    ensures follows { FollowsInside (sums ∷ []) used owed result r.old r.new }
{
    let token = r.peek();
    let Some(node) = adding_of(token.kind) else {
        return Ok(used);
    };
    let spot = expect_within(r, token.kind, used + 2 + owed)?;
    let factor = read_factor(r, draft, used + 1, owed)?;
    let term = read_terms(r, draft, factor, owed)?;
    push_node(draft, node, spot)?;
    read_sums(r, draft, term, owed)
}

// An expression.
#[cycle(expr)]
fn read_inner(r: &mut Reader, draft: &mut Expr, used: u32, owed: u32) -> Result<u32, ParseFault>
    requires { used + 1 + owed ≤ 64 }
    ensures room { IfOk result (λ n. n + owed ≤ 64) }
    ensures more { IfOk result (λ n. used < n) }
    ensures text { IfOk result (λ _.
        Drafted expr_text expr_nodes (expr_view draft.old) (expr_view draft.new) r.old r.new) }
    ensures follows { FollowsInside (factor ∷ terms ∷ sums ∷ []) used owed result r.old r.new }
{
    let factor = read_factor(r, draft, used, owed)?;
    let term = read_terms(r, draft, factor, owed)?;
    read_sums(r, draft, term, owed)
}

/// Reads an outermost expression, which a token outside of it follows.
pub fn read_expr(alloc: Global, r: &mut Reader) -> Result<Expr, ParseFault>
    ensures text { IfOk result (λ e. Spelt expr_text expr_tree (expr_view e) r.old r.new) }
    ensures follows { (whole : Option Fault) (k : TheKind) (below : List Sym)
        → At whole 0 (expr_syms (one k ∷ below)) r.old
        → Leads whole 0 (one k ∷ below) result r.new }
{
    let mut draft = Expr {
        nodes: Vec::new(alloc),
        spots: Vec::new(alloc),
    };
    read_inner(r, &mut draft, 0, 0)?;
    Ok(draft)
}
