//! Reading one token.

ghost use Rattle.std.specs.Prelude.{◌≡◌, ℕ, ◌+◌, ◌≤◌, [], ◌∷◌, Option, List, IfOk, OnOk, IfErr};
ghost use Rattle.fm_lex.specs.declared.kind.Kind.TheVariants.{Name as NameKind, Register as RegisterKind};
ghost use Rattle.fm_grammar.specs.Reads.{Fault};
ghost use Rattle.fm_grammar.specs.Signs.{tok, num};
ghost use Rattle.fm_grammar.specs.Score.{Leaf};
ghost use Rattle.fm_grammar.specs.View.{name_view};
ghost use Rattle.fm_grammar.specs.Spelling.{num_text};
ghost use Rattle.fm_grammar.specs.Standing.{num_tree};
ghost use Rattle.fm_grammar.specs.Rules.{Sym, one, inner, any_number, any_register};
ghost use Rattle.fm_terms.specs.Follow.{At, Leads, FollowsStack, IsMark, IsThere, IsDeep, Marked, Spelt};

use crate::fault::ParseFault;
use crate::reader::Reader;
use fm_grammar::{Name, Number};
use fm_lex::{Kind, Spot};

/// Refuses the next token where it needs more than a limit allows.
pub fn check_limit(r: &Reader, needed: u32, most: u32) -> Result<(), ParseFault>
    ensures there { IsThere r.now }
    ensures within { OnOk result (needed ≤ most) }
    ensures deep { IfErr result (λ e. IsDeep needed most e r.now) }
{
    let token = r.peek();
    if needed > most {
        return Err(ParseFault::TooNested { spot: token.spot });
    }
    Ok(())
}

/// Takes the token of a kind, and answers its spot.
#[inline(always)]
pub fn expect(r: &mut Reader, kind: Kind) -> Result<Spot, ParseFault>
    requires { IsMark kind }
    ensures text { IfOk result (λ s. Marked kind s r.old r.new) }
    ensures follows { FollowsStack (one kind ∷ []) result r.old r.new }
    ensures inside { (whole : Option Fault) (used : ℕ) (below : List Sym)
        → At whole used (inner kind ∷ below) r.old → Leads whole (used + 1) below result r.new }
{
    let spot = r.peek().spot;
    if !r.next_is(kind) {
        return Err(ParseFault::Expected { spot });
    }
    r.advance()?;
    Ok(spot)
}

/// Reads a number.
pub fn read_number(r: &mut Reader) -> Result<Number, ParseFault>
    ensures text { IfOk result (λ n. Spelt num_text num_tree n r.old r.new) }
    ensures follows { FollowsStack (one any_number ∷ []) result r.old r.new }
{
    let token = r.peek();
    let Kind::Number(value) = token.kind else {
        return Err(ParseFault::Expected { spot: token.spot });
    };
    r.advance()?;
    Ok(Number {
        value,
        spot: token.spot,
    })
}

/// Reads a name.
pub fn read_name<'s>(r: &mut Reader<'s>) -> Result<Name<'s>, ParseFault>
    ensures text { IfOk result (λ n. r.old ≡ tok NameKind (name_view n) ∷ r.new) }
    ensures follows { FollowsStack (one NameKind ∷ []) result r.old r.new }
{
    let token = r.peek();
    if !r.next_is(Kind::Name) {
        return Err(ParseFault::Expected { spot: token.spot });
    }
    r.advance()?;
    Ok(Name {
        text: token.text,
        spot: token.spot,
    })
}

/// Reads a register, and answers its number, 0 to 7.
pub fn read_register(r: &mut Reader) -> Result<u8, ParseFault>
    ensures text { IfOk result (λ n. (l : Leaf) × (r.old ≡ tok (RegisterKind n) l ∷ r.new)) }
    ensures follows { FollowsStack (one any_register ∷ []) result r.old r.new }
{
    let token = r.peek();
    let Kind::Register(register) = token.kind else {
        return Err(ParseFault::Expected { spot: token.spot });
    };
    r.advance()?;
    Ok(register)
}
