//! Judges a text: the plan of what it means, or its fault.
ghost use Rattle.std.specs.Prelude.{◌≡◌, ◌≤◌, List, ℕ, length, IfOk, IfErr};
ghost use Rattle.fm_lex.specs.declared.lexer.TheConstants.{MAX_TEXT};
ghost use Rattle.fm_lex.specs.Tokens.{tokens};
ghost use Rattle.fm_grammar.specs.Score.{Score as Tree};
ghost use Rattle.fm_grammar.specs.Within.{limits};
ghost use Rattle.fm_grammar.specs.Reads.{lexical, Reads, TripsWith};
ghost use Rattle.fm_parse.specs.Whole.{IsFault};
ghost use Rattle.fm_judge.specs.Judging.{IsFirst, IsPlanned, IsJudged};

use crate::outlined::outline_text;
use fm_check::{CheckFault, Checked, check_made};
use fm_lex::{LexFault, MAX_TEXT};
use fm_parse::ParseFault;
use fm_plan::plan_outline;
use fm_program::Plan;
use fm_tell::RunFault;
use std::alloc::Global;

/// A byte that begins no token.
const BAD_BYTE: u8 = 1;

/// A number of too many digits, or with a letter behind it.
const BAD_NUMBER: u8 = 2;

/// A token that stands there in no text.
const NOT_EXPECTED: u8 = 3;

/// A token that stands there only past 64 open braces, or past 64 tokens of an expression.
const NESTED_TOO_DEEP: u8 = 4;

// The fault of a text with a byte or a number that is no token.
fn fault_of_token(fault: LexFault) -> RunFault
    ensures { (text : List ℕ) → length text ≤ MAX_TEXT → TripsWith (tokens text) (lexical fault)
        → IsJudged text result }
{
    match fault {
        LexFault::BadByte { spot } => RunFault::Score {
            spot,
            number: BAD_BYTE,
        },
        LexFault::BadNumber { spot } => RunFault::Score {
            spot,
            number: BAD_NUMBER,
        },
    }
}

/// The fault of a text that is not read.
pub(crate) fn fault_of(fault: ParseFault) -> RunFault
    ensures { (text : List ℕ) → length text ≤ MAX_TEXT → IsFault fault (tokens text)
        → IsJudged text result }
{
    match fault {
        ParseFault::Lex(fault) => fault_of_token(fault),
        ParseFault::Expected { spot } => RunFault::Score {
            spot,
            number: NOT_EXPECTED,
        },
        ParseFault::TooNested { spot } => RunFault::Score {
            spot,
            number: NESTED_TOO_DEEP,
        },
        ParseFault::Memory => RunFault::Memory,
    }
}

/// The fault of a text that reads as a score which is refused.
pub(crate) fn fault_of_check(fault: CheckFault) -> RunFault
    ensures { (text : List ℕ) (s : Tree) → length text ≤ MAX_TEXT → Reads limits (tokens text) s
        → IsFirst fault s → IsJudged text result }
{
    match fault {
        CheckFault::Refused { why, spot } => RunFault::Score {
            spot,
            number: why.number(),
        },
        CheckFault::Memory => RunFault::Memory,
    }
}

/// The plan of what a text of at most 1,048,576 bytes means, or its fault.
pub fn judge(alloc: Global, text: &[u8]) -> Result<Plan, RunFault>
    requires { length text.now ≤ MAX_TEXT }
    ensures planned { IfOk result (λ p. IsPlanned text.now p) }
    ensures refused { IfErr result (λ fault. IsJudged text.now fault) }
{
    let outline = outline_text(alloc, text)?;
    let Checked { outline, bounds } = match check_made(alloc, outline) {
        Ok(checked) => checked,
        Err(fault) => return Err(fault_of_check(fault)),
    };
    Ok(plan_outline(alloc, outline, &bounds)?)
}
