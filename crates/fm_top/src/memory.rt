//! A performance that is written into memory, and read from there.
ghost use Rattle.std.specs.Prelude.{◌≡◌, ◌≤◌, length, Ok, IfOk, IfErr};
ghost use Rattle.fm_line.specs.Piece.{piece};
ghost use Rattle.fm_play.specs.Ends.{piece_end};
ghost use Rattle.fm_play.specs.Performance.{played_of};
ghost use Rattle.fm_program.specs.Process.{plan_lines};
ghost use Rattle.fm_read.specs.Files.{Contents, contents};
ghost use Rattle.fm_read.specs.declared.limits.TheConstants as files;
ghost use Rattle.fm_smf.specs.File.{file};
ghost use Rattle.fm_words.specs.View.{HasRanges, options_view};
ghost use Rattle.fm_tell.specs.declared.run_fault.RunFault.TheVariants.{Memory};

use crate::growing::GrowingSink;
use fm_edge::OpenGate;
use fm_play::Played;
use fm_program::Plan;
use fm_read::{File, read};
use fm_tell::RunFault;
use fm_way::{Performance, play_alone};
use fm_words::Options;
use std::alloc::Global;

/// The file of the plan's piece in memory, played by this thread with the room and the lead of the
/// options, and its size. Memory is taken as the file grows; a sink in memory fails only where it
/// finds none.
pub fn play_in_memory(
    alloc: Global,
    plan: Plan,
    options: &Options,
) -> Result<(GrowingSink, Played), RunFault>
    requires ranges { HasRanges (options_view options.now) }
    ensures file { IfOk result (λ r. r.0.bytes.items
        ≡ file plan.profile (piece (plan_lines plan)) (piece_end (plan_lines plan))) }
    ensures played { IfOk result (λ r. r.1 ≡ played_of plan) }
    ensures err { IfErr result (λ fault. fault ≡ Memory) }
{
    let mut memory = GrowingSink::new(alloc);
    let performance = Performance::alone(plan, options);
    match play_alone(alloc, performance, &OpenGate, &mut memory) {
        Ok(played) => Ok((memory, played)),
        Err(_) => Err(RunFault::Memory),
    }
}

/// The file that the bytes are, which is known to be one.
pub fn open_written(bytes: &[u8]) -> File<'_>
    requires small { length bytes.now ≤ files.MAX_FILE }
    requires read { (c : Contents) × (contents bytes.now ≡ Ok c) }
    ensures { contents bytes.now ≡ Ok result }
{
    match read(bytes) {
        Ok(file) => file,
        Err(_) => unreachable!(),
    }
}
