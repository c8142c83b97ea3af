//! An expression with the places of its nodes in the text.
use crate::Node;
use std::marker::{Send, Sync};

/// How many nodes an expression has at most.
pub const MAX_NODES: usize = 64;

/// A place in the text: line and column, both from 1.
#[derive(Clone, Copy, Debug, PartialEq, Eq)]
pub struct Spot2 {
    /// The line, from 1.
    pub line: u32,
    /// The column in bytes, from 1.
    pub column: u32,
}

/// An expression as a postfix list, with one place in the text for each node.
#[derive(Clone, Debug, Drop)]
pub struct Expr {
    /// The nodes, at most 64.
    pub nodes: Vec<Node>,
    /// Where each node's token stands.
    pub spots: Vec<Spot2>,
}

fn crosses_threads<T: Send + Sync>(_value: &T) {}

// Threads may be sent expressions and may share them.
fn expr_crosses_threads(expr: &Expr) {
    crosses_threads(expr);
}
