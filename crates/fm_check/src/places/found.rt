//! Which fault statements have that ask for more than is open.

ghost use Rattle.std.specs.Prelude.{◌≡◌, ◌++◌, List, None};
ghost use Rattle.fm_rules.specs.Found.{IsFirst};
ghost use Rattle.fm_meaning.specs.Fault.{NumberedFault};
ghost use Rattle.fm_meaning.specs.Faults.{first_found};
ghost use Rattle.fm_outline.specs.Asking.{depths_view};
ghost use Rattle.fm_outline.specs.Needs.{missing};

use fm_lex::Spot;
use fm_outline::{Depths, MAX_BLOCKS, MAX_FRAMES, MAX_WARPS, Needs};
use fm_rules::{Fault, Why};

/// The first fault of a statement that asks this where so much is open.
pub(crate) fn first_missing(spot: Spot, needs: Needs, depths: Depths) -> Option<Fault>
    ensures { IsFirst result (missing spot needs (depths_view depths)) }
{
    let why = if needs.fork_in_choice || (needs.forks && depths.in_choice) {
        Why::ForkInChoice
    } else if needs.rhythm && !depths.in_rhythm {
        Why::PlayOutsideRhythm
    } else if depths.loops < needs.loops {
        Why::IndexOutsideLoop
    } else if MAX_WARPS < depths.warps.saturating_add(needs.warps)
        || MAX_FRAMES < depths.frames.saturating_add(needs.frames)
        || MAX_BLOCKS < depths.blocks.saturating_add(needs.blocks)
    {
        Why::TooDeep
    } else {
        return None;
    };
    Some(Fault { why, spot })
}

/// The first fault of two parts in turn. That of the second counts where the first has none.
pub(crate) fn first_of(one: Option<Fault>, two: Option<Fault>) -> Option<Fault>
    ensures { (a b : List NumberedFault) → IsFirst one a →
        (None ≡ first_found a → IsFirst two b) → IsFirst result (a ++ b) }
{
    match one {
        Some(fault) => Some(fault),
        None => two,
    }
}
