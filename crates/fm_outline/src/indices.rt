//! How many loops have to be open for the indices that are asked for.

ghost use Rattle.std.specs.Prelude.{◌≡◌, ◌||◌, ℕ, map, nat_lt};
ghost use Rattle.std.specs.List.{list_any};
ghost use Rattle.fm_expansion.specs.Outline.{expr_in, chord_in, source_of, length_of, rounds_of};
ghost use Rattle.fm_meaning.specs.Places.{is_outside, has_outside, draw_outside};
ghost use Rattle.fm_meaning.specs.Places.{span_outside, count_outside};
ghost use Rattle.fm_outline.specs.View.{tables_view, lasting_view};

use crate::lasting::Lasting;
use crate::tables::Tables;
use fm_program::{Count, Draw};
use fm_value::Node;

// For a node.
fn loops_of_node(node: Node) -> u16
    ensures { (l : ℕ) → nat_lt l result ≡ is_outside l node }
{
    match node {
        Node::Index(index) => u16::from(index) + 1,
        Node::Literal(_)
        | Node::Register(_)
        | Node::Negate
        | Node::Add
        | Node::Subtract
        | Node::Multiply
        | Node::Divide
        | Node::Remain
        | Node::Pick
        | Node::Min
        | Node::Max
        | Node::Less
        | Node::Same => 0,
    }
}

// For an expression.
fn loops_of_nodes(nodes: &[Node]) -> u16
    ensures { (l : ℕ) → nat_lt l result ≡ has_outside l nodes.now }
{
    let mut loops = 0;
    for node in nodes {
        loops = loops_of_node(*node).max(loops);
    }
    loops
}

/// For an expression by its index in the table.
pub(crate) fn loops_of_expr(tables: &Tables, expr: u32) -> u16
    ensures { (l : ℕ) → nat_lt l result ≡ has_outside l (expr_in (tables_view tables.now) expr) }
{
    match tables.exprs.get(expr as usize) {
        Some(expr) => loops_of_nodes(&expr.nodes),
        None => 0,
    }
}

/// For a number of a message.
pub(crate) fn loops_of_draw(tables: &Tables, draw: Draw) -> u16
    ensures { (l : ℕ) → nat_lt l result
        ≡ draw_outside l (source_of (tables_view tables.now) draw) }
{
    match draw {
        Draw::Fixed { .. } => 0,
        Draw::Drawn { expr } => loops_of_expr(tables, expr),
    }
}

// For the pitches of a note.
fn loops_of_draws(tables: &Tables, draws: &[Draw]) -> u16
    ensures { (l : ℕ) → nat_lt l result
        ≡ list_any (draw_outside l) (map (source_of (tables_view tables.now)) draws.now) }
{
    let mut loops = 0;
    for draw in draws {
        loops = loops_of_draw(tables, *draw).max(loops);
    }
    loops
}

// For a chord by its index in the table.
fn loops_of_chord(tables: &Tables, chord: u32) -> u16
    ensures { (l : ℕ) → nat_lt l result ≡ list_any (draw_outside l)
        (map (source_of (tables_view tables.now)) (chord_in (tables_view tables.now) chord)) }
{
    match tables.chords.get(chord as usize) {
        Some(draws) => loops_of_draws(tables, draws),
        None => 0,
    }
}

/// For a duration.
pub(crate) fn loops_of_lasting(tables: &Tables, lasting: Lasting) -> u16
    ensures { (l : ℕ) → nat_lt l result
        ≡ span_outside l (length_of (tables_view tables.now) (lasting_view lasting)) }
{
    match lasting {
        Lasting::Ticks { .. } | Lasting::Beat => 0,
        Lasting::Computed { expr, .. } => loops_of_expr(tables, expr),
    }
}

/// For a note.
pub(crate) fn loops_of_note(tables: &Tables, chord: u32, lasting: Lasting) -> u16
    ensures { (l : ℕ) → nat_lt l result ≡ (list_any (draw_outside l)
        (map (source_of (tables_view tables.now)) (chord_in (tables_view tables.now) chord))
        || span_outside l (length_of (tables_view tables.now) (lasting_view lasting))) }
{
    loops_of_chord(tables, chord).max(loops_of_lasting(tables, lasting))
}

/// For a count.
pub(crate) fn loops_of_count(tables: &Tables, count: Count) -> u16
    ensures { (l : ℕ) → nat_lt l result
        ≡ count_outside l (rounds_of (tables_view tables.now) count) }
{
    match count {
        Count::Fixed { .. } => 0,
        Count::Drawn { expr, .. } => loops_of_expr(tables, expr),
    }
}
