//! A count.

use fm_grammar::Number;
use fm_value::Expr;

/// How often, or how long: a number, or what an expression gives, at most `most`.
#[derive(Drop)]
pub enum Count {
    Fixed { number: Number },
    Drawn { value: Expr, most: Number },
}
