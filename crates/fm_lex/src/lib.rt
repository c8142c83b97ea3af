//! The tokens of a score text, one at a time. `Lexer::next` gives the next token, whose text is a
//! slice of the source, and takes no memory. The calls of `next` give exactly the list `tokens` of
//! `specs/Tokens`, which ends with `End` or with the first fault; the last one is given again and
//! again. What the tokens mean together is the grammar's affair.
#![tactic(auto)]

mod bytes;
mod keyword;
mod kind;
mod laws;
mod lexer;
mod spot;
mod token;
mod word;

pub use keyword::Keyword;
pub use kind::Kind;
pub use laws::tokens_stand;
pub use lexer::{Lexer, MAX_TEXT};
pub use spot::Spot;
pub use token::{LexFault, Token};
