//! A value that a statement sends.

use fm_lex::Spot;
use fm_value::Expr;

/// A literal with the spot of its first token, which may be a `-`, or an expression.
#[derive(Drop)]
pub enum Amount {
    Literal { value: i64, spot: Spot },
    Computed { value: Expr },
}
