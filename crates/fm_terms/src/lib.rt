//! What statements of a score text are made of, read token by token: numbers, names, expressions,
//! lengths, pitches, lists and the parts of shapes.
//!
//! A [`Reader`] is the tokens that are left. Each function that reads answers what its tokens stand
//! for, or the fault with which the whole text trips (`FollowsStack`). Statements and what stands
//! round them are left to the parser.
#![tactic(auto)]

mod count;
mod expr;
mod fault;
mod lists;
mod operators;
mod part;
mod pushes;
mod reader;
mod token;
mod value;

pub use count::Count;
pub use expr::read_expr;
pub use fault::ParseFault;
pub use lists::{read_lengths, read_numbers, read_parts, read_pitches};
pub use pushes::{append, make_room, push};
pub use reader::Reader;
pub use token::{check_limit, expect, read_name, read_number, read_register};
pub use value::{read_amount, read_count, read_duration};
