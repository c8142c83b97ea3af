//! The words that begin statements.

ghost use Rattle.std.specs.Prelude.{◌≡◌, None, IfSome};
ghost use Rattle.fm_parse.specs.Statements.{begins, starter, has_block, braces_needed, IsStarter};

use fm_lex::{Keyword, Kind};

fn begins_statement(word: Keyword) -> bool
    ensures { result ≡ begins word }
{
    match word {
        Keyword::Note => true,
        Keyword::Play => true,
        Keyword::Rest => true,
        Keyword::Skip => true,
        Keyword::Control => true,
        Keyword::Program => true,
        Keyword::Bend => true,
        Keyword::Set => true,
        Keyword::If => true,
        Keyword::Repeat => true,
        Keyword::Do => true,
        Keyword::Warp => true,
        Keyword::Par => true,
        Keyword::Channel => true,
        Keyword::Volume => true,
        Keyword::Gate => true,
        Keyword::Rhythm => true,
        Keyword::Artic => true,
        Keyword::Loud => true,
        _ => false,
    }
}

/// The word of a statement that begins with a token of the kind.
pub fn starter_of(kind: Kind) -> Option<Keyword>
    ensures some { IfSome result (λ w. IsStarter kind w) }
    ensures none { result ≡ None → starter kind ≡ None }
{
    match kind {
        Kind::Keyword(word) => {
            if begins_statement(word) {
                Some(word)
            } else {
                None
            }
        }
        _ => None,
    }
}

/// Whether a statement with this word ends with its one block.
pub fn ends_with_block(word: Keyword) -> bool
    ensures { result ≡ has_block word }
{
    match word {
        Keyword::Repeat => true,
        Keyword::Warp => true,
        Keyword::Channel => true,
        Keyword::Volume => true,
        Keyword::Gate => true,
        Keyword::Rhythm => true,
        Keyword::Artic => true,
        Keyword::Loud => true,
        _ => false,
    }
}

/// How many braces a statement with this word opens one in another.
pub fn braces_of(word: Keyword) -> u32
    ensures { result ≡ braces_needed word }
{
    match word {
        Keyword::Par => 2,
        Keyword::If => 1,
        Keyword::Repeat => 1,
        Keyword::Warp => 1,
        Keyword::Channel => 1,
        Keyword::Volume => 1,
        Keyword::Gate => 1,
        Keyword::Rhythm => 1,
        Keyword::Artic => 1,
        Keyword::Loud => 1,
        _ => 0,
    }
}
