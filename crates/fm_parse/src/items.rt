//! Reading statements and blocks, of each of which a maker is told. Each function is given how many
//! braces are open round it.

ghost use Rattle.std.specs.Prelude.{◌≡◌, true, ℕ, ◌+◌, ◌<◌, ◌≤◌, List, [], ◌∷◌, ◌++◌, Option, map, vec_items, IfOk, IfErr, OnOk};
ghost use Rattle.fm_lex.specs.declared.kind.Kind.TheVariants.{Keyword as Word};
ghost use Rattle.fm_lex.specs.declared.keyword.Keyword.TheVariants.{If, Par, Branch};
ghost use Rattle.fm_grammar.specs.Making.{AreForked, AreMade};
ghost use Rattle.fm_grammar.specs.Reads.{Fault};
ghost use Rattle.fm_grammar.specs.Spelling.{stmt_text, stmts_text, block_text, else_text};
ghost use Rattle.fm_grammar.specs.Standing.{stmts_tree, block_tree, else_tree};
ghost use Rattle.fm_grammar.specs.Rules.{Sym, one, stmts as statements, otherwise, branches as further, block};
ghost use Rattle.fm_grammar.specs.Table.{opened};
ghost use Rattle.fm_terms.specs.Reader.{first_kind};
ghost use Rattle.fm_terms.specs.Follow.{At, Leads, FollowsIn, IsThere, IsDeep};
ghost use Rattle.fm_parse.specs.Made.{Made};
ghost use Rattle.fm_parse.specs.Statements.{has_block, begins, stmt_syms, placed_tree, braces_needed, IsMain, fork_text, fork_tree};

use crate::reading::Reading;
use crate::words::{braces_of, ends_with_block, starter_of};
use fm_lex::{Keyword, Kind};
use fm_terms::{ParseFault, append, make_room, push};
use std::alloc::Global;

/// The most braces that are open at one time.
const MAX_BRACES: u32 = 64;

const OPENS: Kind = Kind::Symbol(b'{');

const CLOSES: Kind = Kind::Symbol(b'}');

const BRANCH: Kind = Kind::Keyword(Keyword::Branch);

const ELSE: Kind = Kind::Keyword(Keyword::Else);

// Refuses the next token where the statement with this word opens too many braces.
fn check_braces<W: Reading>(w: &W, word: Keyword, depth: u32) -> Result<(), ParseFault>
    requires { depth ≤ 64 }
    ensures there { IsThere (W.left w.now) }
    ensures within { OnOk result (depth + braces_needed word ≤ 64) }
    ensures deep { IfErr result (λ e. IsDeep (depth + braces_needed word) 64 e (W.left w.now)) }
{
    w.check(depth + braces_of(word), MAX_BRACES)
}

/// Reads a block.
#[cycle(item)]
pub fn read_block<W: Reading>(
    alloc: Global,
    w: &mut W,
    depth: u32,
) -> Result<Vec<W::Made>, ParseFault>
    requires { depth < 64 }
    ensures text { IfOk result (λ b. Made (AreMade W.is_made) block_text block_tree
        (W.told w.old) b.items (W.told w.new) (W.left w.old) (W.left w.new)) }
    ensures follows { FollowsIn depth (block []) result (W.left w.old) (W.left w.new) }
{
    w.expect(OPENS)?;
    let body = read_statements(alloc, w, depth + 1)?;
    w.expect(CLOSES)?;
    Ok(body)
}

// What follows the first block of a choice.
#[cycle(item)]
fn read_else<W: Reading>(alloc: Global, w: &mut W, depth: u32) -> Result<Vec<W::Made>, ParseFault>
    requires { depth < 64 }
    ensures text { IfOk result (λ b. Made (AreMade W.is_made) else_text else_tree
        (W.told w.old) b.items (W.told w.new) (W.left w.old) (W.left w.new)) }
    ensures follows { FollowsIn depth (otherwise ∷ []) result (W.left w.old) (W.left w.new) }
{
    if !w.next_is(ELSE) {
        return Ok(Vec::new(alloc));
    }
    w.expect(ELSE)?;
    read_block(alloc, w, depth)
}

// A choice.
#[cycle(item)]
#[inline(never)]
fn read_if<W: Reading>(alloc: Global, w: &mut W, depth: u32) -> Result<W::Made, ParseFault>
    requires { depth < 64 }
    ensures text { IfOk result (λ m. Made W.is_made stmt_text placed_tree
        (W.told w.old) m (W.told w.new) (W.left w.old) (W.left w.new)) }
    ensures follows { FollowsIn depth (stmt_syms If) result (W.left w.old) (W.left w.new) }
{
    let spot = w.expect(Kind::Keyword(Keyword::If))?;
    let begun = w.tested(alloc, spot)?;
    let taken = read_block(alloc, w, depth)?;
    let other = read_else(alloc, w, depth)?;
    Ok(w.choose(begun, taken, other))
}

// A statement that ends with its one block.
#[cycle(item)]
#[inline(never)]
fn read_opened<W: Reading>(
    alloc: Global,
    w: &mut W,
    word: Keyword,
    depth: u32,
) -> Result<W::Made, ParseFault>
    requires room { depth < 64 }
    requires block { has_block word ≡ true }
    ensures text { IfOk result (λ m. Made W.is_made stmt_text placed_tree
        (W.told w.old) m (W.told w.new) (W.left w.old) (W.left w.new)) }
    ensures follows { FollowsIn depth (stmt_syms word) result (W.left w.old) (W.left w.new) }
{
    let begun = w.opened(alloc, word)?;
    let body = read_block(alloc, w, depth)?;
    Ok(w.enclose(begun, body))
}

// The branches of a fork.
#[cycle(item)]
fn read_branches<W: Reading>(
    alloc: Global,
    w: &mut W,
    depth: u32,
) -> Result<Vec<Vec<W::Made>>, ParseFault>
    requires { depth < 64 }
    ensures text { IfOk result (λ b. Made (AreForked W.is_made) fork_text fork_tree
        (W.told w.old) (map vec_items b.items) (W.told w.new) (W.left w.old) (W.left w.new)) }
    ensures follows { FollowsIn depth (one (Word Branch) ∷ block (further ∷ []))
        result (W.left w.old) (W.left w.new) }
{
    let mut list = Vec::new(alloc);
    w.expect(BRANCH)?;
    let first = read_block(alloc, w, depth)?;
    push(&mut list, first)?;
    while w.next_is(BRANCH) {
        w.expect(BRANCH)?;
        let next = read_block(alloc, w, depth)?;
        push(&mut list, next)?;
    }
    Ok(list)
}

// A fork.
#[cycle(item)]
#[inline(never)]
fn read_par<W: Reading>(alloc: Global, w: &mut W, depth: u32) -> Result<W::Made, ParseFault>
    requires { depth + 2 ≤ 64 }
    ensures text { IfOk result (λ m. Made W.is_made stmt_text placed_tree
        (W.told w.old) m (W.told w.new) (W.left w.old) (W.left w.new)) }
    ensures follows { FollowsIn depth (stmt_syms Par) result (W.left w.old) (W.left w.new) }
{
    let spot = w.expect(Kind::Keyword(Keyword::Par))?;
    w.expect(OPENS)?;
    let branches = read_branches(alloc, w, depth + 1)?;
    w.expect(CLOSES)?;
    Ok(w.fork(spot, branches))
}

// A statement with this word, where its braces may be opened.
#[cycle(item)]
#[inline(always)]
fn read_worded<W: Reading>(
    alloc: Global,
    w: &mut W,
    word: Keyword,
    depth: u32,
) -> Result<W::Made, ParseFault>
    requires begins { begins word ≡ true }
    requires room { depth + braces_needed word ≤ 64 }
    ensures text { IfOk result (λ m. Made W.is_made stmt_text placed_tree
        (W.told w.old) m (W.told w.new) (W.left w.old) (W.left w.new)) }
    ensures follows { FollowsIn depth (stmt_syms word) result (W.left w.old) (W.left w.new) }
{
    if ends_with_block(word) {
        return read_opened(alloc, w, word, depth);
    }
    match word {
        Keyword::If => read_if(alloc, w, depth),
        Keyword::Par => read_par(alloc, w, depth),
        _ => w.plain(alloc, word),
    }
}

/// Reads a statement with this word.
#[cycle(item)]
#[inline(always)]
pub fn read_statement<W: Reading>(
    alloc: Global,
    w: &mut W,
    word: Keyword,
    depth: u32,
) -> Result<W::Made, ParseFault>
    requires begins { begins word ≡ true }
    requires first { first_kind (W.left w.old) ≡ Word word }
    requires room { depth ≤ 64 }
    ensures text { IfOk result (λ m. Made W.is_made stmt_text placed_tree
        (W.told w.old) m (W.told w.new) (W.left w.old) (W.left w.new)) }
    ensures follows { (whole : Option Fault) (used : ℕ) (s : Sym) (below : List Sym)
        → IsMain s → opened below ≡ depth
        → At whole used (s ∷ below) (W.left w.old)
        → Leads whole 0 (s ∷ below) result (W.left w.new) }
{
    check_braces(w, word, depth)?;
    read_worded(alloc, w, word, depth)
}

// Reads statements.
#[cycle(item)]
fn read_statements<W: Reading>(
    alloc: Global,
    w: &mut W,
    depth: u32,
) -> Result<Vec<W::Made>, ParseFault>
    requires { depth ≤ 64 }
    ensures text { IfOk result (λ b. Made (AreMade W.is_made) stmts_text stmts_tree
        (W.told w.old) b.items (W.told w.new) (W.left w.old) (W.left w.new)) }
    ensures follows { FollowsIn depth (statements ∷ []) result (W.left w.old) (W.left w.new) }
{
    let mut items = Vec::new(alloc);
    while let Some(word) = starter_of(w.kind()) {
        // Room first, so that a block lies before what is inside it.
        make_room(&mut items)?;
        let item = read_statement(alloc, w, word, depth)?;
        append(&mut items, item)?;
    }
    Ok(items)
}
