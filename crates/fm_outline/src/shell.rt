//! What a statement says before the block inside it.

ghost use Rattle.std.specs.Prelude.{◌≡◌, Ok};
ghost use Rattle.fm_program.specs.declared.op.Count.{Count as Rounds};
ghost use Rattle.fm_outline.specs.View.{Look, block_view, instruction_view};
ghost use Rattle.fm_outline.specs.Forking.{Surrounds};
ghost use Rattle.fm_outline.specs.Shell.{closed, opened, opened_warp};

use crate::quality::Quality;
use crate::step::{Instruction, Step};
use fm_grammar::Number;
use fm_program::Count;
use fm_rules::CheckFault;
use std::alloc::AllocError;

/// A statement without the block inside it.
#[derive(Clone, Copy, Drop)]
pub(crate) enum Shell {
    Loop { count: Count },
    Warp { number: u32 },
    Channel { number: u8 },
    Steady { quality: Quality, entry: u32 },
    Under { quality: Quality, list: u32 },
}

impl Shell {
    /// The statement with its block.
    #[tactic(auto, using(crate::proofs::SeenLemmas::blocks_seen))]
    pub(crate) fn round(self, body: Vec<Step>) -> Instruction
        ensures view { (look : Look) →
            instruction_view look result ≡ closed self (block_view look body.items) }
        ensures block { Surrounds body.items result }
    {
        match self {
            Shell::Loop { count } => Instruction::Loop { count, body },
            Shell::Warp { number } => Instruction::Warp { number, body },
            Shell::Channel { number } => Instruction::Channel { number, body },
            Shell::Steady { quality, entry } => Instruction::Steady {
                quality,
                entry,
                body,
            },
            Shell::Under { quality, list } => Instruction::Under {
                quality,
                list,
                body,
            },
        }
    }
}

/// A loop with a fixed count.
pub(crate) fn repeated(count: Number) -> Result<Shell, CheckFault>
    ensures { result ≡ Ok (Shell.Loop (Rounds.Fixed count.value)) }
{
    let count = Count::Fixed { count: count.value };
    Ok(Shell::Loop { count })
}

/// A loop with a count that is computed, by the index of its expression.
pub(crate) fn drawn(expr: Result<u32, AllocError>, most: Number) -> Result<Shell, CheckFault>
    ensures { result ≡ opened (λ e. Shell.Loop (Rounds.Drawn e most.value)) expr }
{
    match expr {
        Ok(expr) => {
            let most = most.value;
            let count = Count::Drawn { expr, most };
            Ok(Shell::Loop { count })
        }
        Err(_) => Err(CheckFault::Memory),
    }
}

/// A deformation by its number, or the fault of a name that stands for none.
pub(crate) fn deformed(number: Result<u32, CheckFault>) -> Result<Shell, CheckFault>
    ensures { result ≡ opened_warp number }
{
    match number {
        Ok(number) => Ok(Shell::Warp { number }),
        Err(fault) => Err(fault),
    }
}

/// A velocity of all notes inside.
pub(crate) fn volume(number: Number) -> Result<Shell, CheckFault>
    ensures { result ≡ Ok (Shell.Steady Quality.Loudness number.value) }
{
    let (quality, entry) = (Quality::Loudness, number.value);
    Ok(Shell::Steady { quality, entry })
}

/// An articulation of all notes inside.
pub(crate) fn gate(number: Number) -> Result<Shell, CheckFault>
    ensures { result ≡ Ok (Shell.Steady Quality.Articulation number.value) }
{
    let (quality, entry) = (Quality::Articulation, number.value);
    Ok(Shell::Steady { quality, entry })
}

/// A list by its index.
pub(crate) fn under(quality: Quality, list: Result<u32, AllocError>) -> Result<Shell, CheckFault>
    ensures { result ≡ opened (Shell.Under quality) list }
{
    match list {
        Ok(list) => Ok(Shell::Under { quality, list }),
        Err(_) => Err(CheckFault::Memory),
    }
}
