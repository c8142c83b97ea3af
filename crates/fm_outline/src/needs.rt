//! What statements ask of the blocks round them.

ghost use Rattle.std.specs.Prelude.{◌≡◌, ◌<◌, ◌+◌, min};
ghost use Rattle.fm_outline.specs.Asking.{depths_view};
ghost use Rattle.fm_outline.specs.Needs.{nothing, asks as asks_for, forked, both as both_of};
ghost use Rattle.fm_outline.specs.Needs.{outside as outside_of};

use crate::depths::{Depths, MAX_BLOCKS, MAX_FRAMES, MAX_WARPS};

/// What statements ask of the blocks that are open round them, whichever these are.
#[derive(Clone, Copy, Debug, PartialEq, Eq)]
pub struct Needs {
    /// A fork stands in them.
    pub forks: bool,
    /// A fork stands in a choice of theirs.
    pub fork_in_choice: bool,
    /// A duration of the rhythm is asked for outside each rhythm of theirs.
    pub rhythm: bool,
    /// How many loops have to be open for each index that is asked for.
    pub loops: u16,
    /// How many warps of theirs lie inside one another, up to one more than there may be.
    pub warps: u16,
    /// How many loops and lists, up to one more than there may be.
    pub frames: u16,
    /// How many blocks of any kind, up to one more than there may be.
    pub blocks: u16,
}

/// Nothing is asked.
pub fn no_needs() -> Needs
    ensures { result ≡ nothing }
{
    Needs {
        forks: false,
        fork_in_choice: false,
        rhythm: false,
        loops: 0,
        warps: 0,
        frames: 0,
        blocks: 0,
    }
}

/// A rhythm, and so many open loops.
pub(crate) fn asks(rhythm: bool, loops: u16) -> Needs
    ensures { result ≡ asks_for rhythm loops }
{
    Needs {
        rhythm,
        loops,
        ..no_needs()
    }
}

/// A fork.
pub(crate) fn fork() -> Needs
    ensures { result ≡ forked }
{
    Needs {
        forks: true,
        ..no_needs()
    }
}

/// What the one asks and the other.
pub(crate) fn both(a: Needs, b: Needs) -> Needs
    ensures { result ≡ both_of a b }
{
    Needs {
        forks: a.forks || b.forks,
        fork_in_choice: a.fork_in_choice || b.fork_in_choice,
        rhythm: a.rhythm || b.rhythm,
        loops: a.loops.max(b.loops),
        warps: a.warps.max(b.warps),
        frames: a.frames.max(b.frames),
        blocks: a.blocks.max(b.blocks),
    }
}

// So many levels more, up to one more than there may be.
fn deeper(most: u16, levels: u16, more: u16) -> u16
    requires { most < 100 }
    ensures { result ≡ min (most + 1) (levels + more) }
{
    levels.saturating_add(more).min(most + 1)
}

/// What a block asks that opens so much, from what its statements ask.
pub(crate) fn outside(opens: Depths, needs: Needs) -> Needs
    ensures { result ≡ outside_of (depths_view opens) needs }
{
    Needs {
        forks: needs.forks,
        fork_in_choice: needs.fork_in_choice || (needs.forks && opens.in_choice),
        rhythm: needs.rhythm && !opens.in_rhythm,
        loops: needs.loops.saturating_sub(opens.loops),
        warps: deeper(MAX_WARPS, needs.warps, opens.warps),
        frames: deeper(MAX_FRAMES, needs.frames, opens.frames),
        blocks: deeper(MAX_BLOCKS, needs.blocks, opens.blocks),
    }
}
