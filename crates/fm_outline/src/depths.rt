//! The blocks that are open round a statement.

ghost use Rattle.std.specs.Prelude.{◌≡◌};
ghost use Rattle.fm_meaning.specs.Places.{Depths as PlainDepths, is_computed as computed_of};
ghost use Rattle.fm_meaning.specs.Places.{is_duration, outermost, in_one, in_branching, in_loop};
ghost use Rattle.fm_meaning.specs.Places.{in_warp, in_list, in_fork};
ghost use Rattle.fm_meaning.specs.Resolved.{RoundSource, Quality};
ghost use Rattle.fm_outline.specs.Asking.{depths_view, IsWithin, OpensBlock};

/// How many warps lie inside one another at most.
pub const MAX_WARPS: u16 = 8;

/// How many loops and lists lie inside one another at most.
pub const MAX_FRAMES: u16 = 16;

/// How many blocks of any kind lie inside one another at most.
pub const MAX_BLOCKS: u16 = 64;

/// What is open: whether a choice or a rhythm is, and how many loops, warps, loops and lists, and
/// blocks.
#[derive(Clone, Copy, Debug, PartialEq, Eq)]
pub struct Depths {
    pub in_choice: bool,
    pub in_rhythm: bool,
    pub loops: u16,
    pub warps: u16,
    pub frames: u16,
    pub blocks: u16,
}

/// Nothing is open.
pub fn nothing_open() -> Depths
    ensures { depths_view result ≡ outermost }
{
    Depths {
        in_choice: false,
        in_rhythm: false,
        loops: 0,
        warps: 0,
        frames: 0,
        blocks: 0,
    }
}

/// What a block opens that does no more.
pub(crate) fn block() -> Depths
    ensures { OpensBlock (depths_view result) in_one }
{
    Depths {
        blocks: 1,
        ..nothing_open()
    }
}

/// What a choice opens.
pub(crate) fn choice() -> Depths
    ensures { OpensBlock (depths_view result) in_branching }
{
    Depths {
        in_choice: true,
        blocks: 1,
        ..nothing_open()
    }
}

/// What a loop opens, whose count may be computed.
pub(crate) fn rounds(is_computed: bool) -> Depths
    ensures { (count : RoundSource) → is_computed ≡ computed_of count →
        OpensBlock (depths_view result) (in_loop count) }
{
    Depths {
        in_choice: is_computed,
        loops: 1,
        frames: 1,
        blocks: 1,
        ..nothing_open()
    }
}

/// What a fork opens: a block, and a branch of it.
pub(crate) fn branches() -> Depths
    ensures { OpensBlock (depths_view result) in_fork }
{
    Depths {
        blocks: 2,
        ..nothing_open()
    }
}

/// What a warp opens.
pub(crate) fn warp() -> Depths
    ensures { OpensBlock (depths_view result) in_warp }
{
    Depths {
        warps: 1,
        blocks: 1,
        ..nothing_open()
    }
}

/// What a list opens, which may be a rhythm.
pub(crate) fn list(is_rhythm: bool) -> Depths
    ensures { (quality : Quality) → is_rhythm ≡ is_duration quality →
        OpensBlock (depths_view result) (in_list quality) }
{
    Depths {
        in_rhythm: is_rhythm,
        frames: 1,
        blocks: 1,
        ..nothing_open()
    }
}

/// What is open inside a block that opens so much. No number overflows where no limit is passed
/// yet.
pub fn opened_by(opens: Depths, depths: Depths) -> Depths
    ensures { (within : PlainDepths → PlainDepths) → OpensBlock (depths_view opens) within →
        IsWithin (depths_view depths) → depths_view result ≡ within (depths_view depths) }
{
    Depths {
        in_choice: depths.in_choice || opens.in_choice,
        in_rhythm: depths.in_rhythm || opens.in_rhythm,
        loops: depths.loops.saturating_add(opens.loops),
        warps: depths.warps.saturating_add(opens.warps),
        frames: depths.frames.saturating_add(opens.frames),
        blocks: depths.blocks.saturating_add(opens.blocks),
    }
}
