//! What a statement asks itself, and what it opens round those inside it.

ghost use Rattle.std.specs.Prelude.{◌≡◌};
ghost use Rattle.fm_lex.specs.declared.spot.Spot.{Spot};
ghost use Rattle.fm_expansion.specs.Outline.{Tables as PlainTables, length_of, play_in, rounds_of};
ghost use Rattle.fm_meaning.specs.Places.{is_beat as beat_of, is_computed as computed_of};
ghost use Rattle.fm_meaning.specs.Places.{is_duration};
ghost use Rattle.fm_outline.specs.Asking.{Asks, OpensBlock, depths_view, is_fork, own_faults};
ghost use Rattle.fm_outline.specs.Asking.{within};
ghost use Rattle.fm_outline.specs.View.{Look, instruction_view, lasting_view, quality_view};
ghost use Rattle.fm_outline.specs.View.{tables_view};

use crate::depths::{Depths, block, branches, choice, list, nothing_open, rounds, warp};
use crate::indices::{
    loops_of_count, loops_of_draw, loops_of_expr, loops_of_lasting, loops_of_note,
};
use crate::lasting::Lasting;
use crate::needs::{Needs, asks, fork, no_needs};
use crate::quality::Quality;
use crate::step::Instruction;
use crate::tables::Tables;
use fm_program::Count;

// Whether a duration is the next of the rhythm.
fn is_beat(lasting: Lasting) -> bool
    ensures { (t : PlainTables) → result ≡ beat_of (length_of t (lasting_view lasting)) }
{
    match lasting {
        Lasting::Ticks { .. } | Lasting::Computed { .. } => false,
        Lasting::Beat => true,
    }
}

// Whether a count is computed.
fn is_computed(count: Count) -> bool
    ensures { (t : PlainTables) → result ≡ computed_of (rounds_of t count) }
{
    match count {
        Count::Fixed { .. } => false,
        Count::Drawn { .. } => true,
    }
}

// Whether a list gives durations.
fn is_rhythm(quality: Quality) -> bool
    ensures { result ≡ is_duration (quality_view quality) }
{
    match quality {
        Quality::Duration => true,
        Quality::Articulation | Quality::Loudness => false,
    }
}

/// What a statement asks itself, without those inside it and without a phrase that it names.
#[inline(always)]
pub fn own_needs(tables: &Tables, what: &Instruction) -> Needs
    ensures asks { (look : Look) (spot : Spot) → Asks spot (own_faults spot
        (play_in (tables_view tables.now) (instruction_view look what.now))) result }
    ensures forks { (look : Look) → result.forks ≡ is_fork (instruction_view look what.now) }
{
    match what {
        Instruction::Note { chord, lasting } => {
            asks(is_beat(*lasting), loops_of_note(tables, *chord, *lasting))
        }
        Instruction::Rest { lasting } => {
            asks(is_beat(*lasting), loops_of_lasting(tables, *lasting))
        }
        Instruction::Send { draw, .. } => asks(false, loops_of_draw(tables, *draw)),
        Instruction::Set { expr, .. } => asks(false, loops_of_expr(tables, *expr)),
        Instruction::Choice { expr, .. } => asks(false, loops_of_expr(tables, *expr)),
        Instruction::Loop { count, .. } => asks(false, loops_of_count(tables, *count)),
        Instruction::Par { .. } => fork(),
        Instruction::Phrase { .. } => no_needs(),
        Instruction::Warp { .. } => no_needs(),
        Instruction::Channel { .. } => no_needs(),
        Instruction::Steady { .. } => no_needs(),
        Instruction::Under { .. } => no_needs(),
    }
}

/// What a statement opens round those inside it; nothing where it has none inside.
#[inline(always)]
pub fn opens(what: &Instruction) -> Depths
    ensures { (t : PlainTables) (look : Look) → OpensBlock (depths_view result)
        (within (play_in t (instruction_view look what.now))) }
{
    match what {
        Instruction::Note { .. } => nothing_open(),
        Instruction::Rest { .. } => nothing_open(),
        Instruction::Send { .. } => nothing_open(),
        Instruction::Set { .. } => nothing_open(),
        Instruction::Choice { .. } => choice(),
        Instruction::Loop { count, .. } => rounds(is_computed(*count)),
        Instruction::Phrase { .. } => block(),
        Instruction::Par { .. } => branches(),
        Instruction::Warp { .. } => warp(),
        Instruction::Channel { .. } => block(),
        Instruction::Steady { .. } => block(),
        Instruction::Under { quality, .. } => list(is_rhythm(*quality)),
    }
}
