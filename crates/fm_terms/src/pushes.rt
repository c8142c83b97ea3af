//! Storing what a tree is made of.

ghost use Rattle.std.specs.Prelude.{◌≡◌, [], ◌∷◌, ◌++◌, IfOk, OnOk, IfErr};
ghost use Rattle.fm_grammar.specs.View.{expr_view};
ghost use Rattle.fm_terms.specs.Drafts.{spotted, extended};

use crate::fault::ParseFault;
use fm_lex::Spot;
use fm_value::{Expr, Node, Spot2};

/// Takes room for the next item of a list. The first and the second take it for themselves alone,
/// since most lists of a score have one entry or two.
pub fn make_room<T: Drop>(items: &mut Vec<T>) -> Result<(), ParseFault>
    ensures same { items.new.items ≡ items.old.items }
    ensures memory { IfErr result (λ e. e ≡ ParseFault.Memory) }
{
    if items.len() < 2 && items.reserve_exact(1).is_err() {
        return Err(ParseFault::Memory);
    }
    Ok(())
}

/// Puts an item at the end of a list, whose room doubles. So a list that is dropped soon takes it
/// less often.
pub fn append<T: Drop>(items: &mut Vec<T>, item: T) -> Result<(), ParseFault>
    ensures ok { OnOk result (items.new.items ≡ items.old.items ++ item ∷ []) }
    ensures memory { IfErr result (λ e. e ≡ ParseFault.Memory) }
{
    match items.push(item) {
        Ok(()) => Ok(()),
        Err(_) => Err(ParseFault::Memory),
    }
}

/// Puts an item at the end of a list, which stays: it takes no room that it may not need.
pub fn push<T: Drop>(items: &mut Vec<T>, item: T) -> Result<(), ParseFault>
    ensures ok { OnOk result (items.new.items ≡ items.old.items ++ item ∷ []) }
    ensures memory { IfErr result (λ e. e ≡ ParseFault.Memory) }
{
    make_room(items)?;
    append(items, item)
}

/// Puts a node with its spot at the end of an expression.
pub fn push_node(draft: &mut Expr, node: Node, spot: Spot) -> Result<(), ParseFault>
    ensures ok { OnOk result
        (expr_view draft.new ≡ extended (expr_view draft.old) (spotted node spot ∷ [])) }
    ensures memory { IfErr result (λ e. e ≡ ParseFault.Memory) }
{
    push(&mut draft.nodes, node)?;
    push(
        &mut draft.spots,
        Spot2 {
            line: spot.line,
            column: spot.column,
        },
    )
}
