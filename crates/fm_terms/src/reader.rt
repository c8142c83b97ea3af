//! The tokens that are left.

ghost use Rattle.std.specs.Prelude.{◌≡◌, ◌≢◌, ◌≤◌, ◌∷◌, length, true, false, Ok, IfOk, OnOk, IfErr};
ghost use Rattle.fm_lex.specs.Tokens.{lexeme_of, tokens};
ghost use Rattle.fm_lex.specs.Layout.{is_end};

use crate::fault::ParseFault;
use fm_lex::{Kind, Lexer, MAX_TEXT, Token};
use std::marker::Model;

/// The next token, and the lexer behind it. A contract sees the list of the tokens that are left.
#[derive(Drop)]
pub struct Reader<'s> {
    next: Token<'s>,
    lexer: Lexer<'s>,
}

impl<'s> Model for Reader<'s> {
    ghost use Rattle.std.specs.Prelude.{List};
    ghost use Rattle.fm_lex.specs.Tokens.{Lexed, lexeme_of};
    ghost use Rattle.fm_terms.specs.Reader.{EndsOnce, left_with};

    ghost Value = { List Lexed };

    ghost view = { λ r. left_with (lexeme_of r.next) r.lexer };

    ghost invariant = { λ r. EndsOnce (left_with (lexeme_of r.next) r.lexer) };
}

impl<'s> Reader<'s> {
    ghost use Rattle.std.specs.Prelude.{[]};
    ghost use Rattle.fm_lex.specs.declared.kind.Kind.TheVariants.{End};
    ghost use Rattle.fm_grammar.specs.Score.{Leaf};
    ghost use Rattle.fm_grammar.specs.Signs.{tok};
    ghost use Rattle.fm_terms.specs.Reader.{first_kind, tail};
    ghost use Rattle.fm_terms.specs.Follow.{IsLexical, IsThere};

    /// Reads a text from its first token on.
    pub fn new(source: &'s [u8]) -> Result<Reader<'s>, ParseFault>
        requires { length source.now ≤ MAX_TEXT }
        ensures ok { IfOk result (λ r. r ≡ tokens source.now) }
        ensures fault { IfErr result (λ e. IsLexical e (tokens source.now)) }
    {
        let mut lexer = Lexer::new(source);
        match lexer.next() {
            Ok(next) => Ok(Reader { next, lexer }),
            Err(fault) => Err(ParseFault::Lex(fault)),
        }
    }

    /// The next token.
    pub fn peek(&self) -> Token<'s>
        ensures { self.now ≡ Ok (lexeme_of result) ∷ tail self.now }
    {
        self.next
    }

    /// The kind of the next token.
    pub fn kind(&self) -> Kind
        ensures is { result ≡ first_kind self.now }
        ensures there { IsThere self.now }
    {
        self.next.kind
    }

    /// Whether the next token is of a kind.
    pub fn next_is(&self, kind: Kind) -> bool
        ensures same { result ≡ true → first_kind self.now ≡ kind }
        ensures other { result ≡ false → first_kind self.now ≢ kind }
        ensures there { IsThere self.now }
    {
        self.next.kind == kind
    }

    /// Behind the end nothing follows.
    pub fn at_end(&self)
        ensures { first_kind self.now ≡ End → (e : Leaf) × (self.now ≡ tok End e ∷ []) }
    {
        let _ = &self.next;
    }

    /// Takes a token that is not the end.
    pub fn advance(&mut self) -> Result<(), ParseFault>
        requires { is_end (first_kind self.old) ≡ false }
        ensures ok { OnOk result (self.new ≡ tail self.old) }
        ensures fault { IfErr result (λ e. IsLexical e (tail self.old)) }
    {
        match self.lexer.next() {
            Ok(next) => {
                self.next = next;
                Ok(())
            }
            Err(fault) => Err(ParseFault::Lex(fault)),
        }
    }
}
