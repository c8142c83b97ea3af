//! What is true of the tokens of every text.

ghost use Rattle.std.specs.Prelude.{[], false};
ghost use Rattle.fm_lex.specs.Tokens.{tokens};
ghost use Rattle.fm_lex.specs.Layout.{AreTokens};

/// The tokens stand in the text in their order, each a slice of it at its spot, with nothing but
/// blanks and comments between them; the end or a fault is the last one.
pub fn tokens_stand(text: &[u8])
    ensures { AreTokens false [] text.now (tokens text.now) }
{
    let _ = text;
}
