//! The nodes of the signs and words of an expression.

ghost use Rattle.std.specs.Prelude.{◌≡◌, None, IfSome};
ghost use Rattle.fm_grammar.specs.Rules.{kind_code, rules_of, factor, terms, sums};
ghost use Rattle.fm_grammar.specs.Table.{taking};
ghost use Rattle.fm_terms.specs.Drafts.{IsLeaf, IsPlain, IsScaling, IsAdding};

use fm_lex::Kind;
use fm_value::Node;

/// The node of a number, a register or an index.
pub fn leaf_of(kind: Kind) -> Option<Node>
    ensures some { IfSome result (λ n. IsLeaf kind n) }
    ensures none { result ≡ None → IsPlain kind → taking (kind_code kind) (rules_of factor) ≡ None }
{
    match kind {
        Kind::Number(value) => Some(Node::Literal(value)),
        Kind::Register(register) => Some(Node::Register(register)),
        Kind::Index(index) => Some(Node::Index(index)),
        _ => None,
    }
}

/// The node of an operator between factors.
pub fn scaling_of(kind: Kind) -> Option<Node>
    ensures some { IfSome result (λ n. IsScaling kind n) }
    ensures none { result ≡ None → taking (kind_code kind) (rules_of terms) ≡ None }
{
    if kind == Kind::Symbol(b'*') {
        Some(Node::Multiply)
    } else if kind == Kind::Symbol(b'/') {
        Some(Node::Divide)
    } else if kind == Kind::Symbol(b'%') {
        Some(Node::Remain)
    } else {
        None
    }
}

/// The node of an operator between terms.
pub fn adding_of(kind: Kind) -> Option<Node>
    ensures some { IfSome result (λ n. IsAdding kind n) }
    ensures none { result ≡ None → taking (kind_code kind) (rules_of sums) ≡ None }
{
    if kind == Kind::Symbol(b'+') {
        Some(Node::Add)
    } else if kind == Kind::Symbol(b'-') {
        Some(Node::Subtract)
    } else {
        None
    }
}
