//! The command of which the words are read.
ghost use Rattle.std.specs.Prelude.{◌≡◌, IfOk, false};
ghost use Rattle.clap.specs.Words.{app_of, rule_of};
ghost use Rattle.fm_words.specs.Command.{bare_command, command, flag_named, option_named, text_named};
ghost use Rattle.fm_words.specs.Command.{with_playing, with_files, with_questions};

use clap::{Arg, ArgAction, Command};
use std::alloc::{AllocError, Global};

#[tactic(auto, unfolding(crate::specs::Command::command))]
/// The command: two texts, eight options with a value, and five flags; no help and no version.
pub fn formula_command<'a>(alloc: Global) -> Result<Command<'a>, AllocError>
    ensures { IfOk result (λ c. app_of c ≡ command) }
{
    let command = with_playing(alloc, bare(alloc))?;
    let command = with_files(alloc, command)?;
    with_questions(alloc, command)
}

// With the two texts, and what says how they are played.
fn with_playing<'a>(alloc: Global, command: Command<'a>) -> Result<Command<'a>, AllocError>
    ensures { IfOk result (λ c. app_of c ≡ with_playing (app_of command.entry)) }
{
    command
        .arg(text(alloc, "IN"))?
        .arg(text(alloc, "OUT"))?
        .arg(option(alloc, "workers"))?
        .arg(option(alloc, "lead"))?
        .arg(option(alloc, "room"))
}

// With a large score, rounds, and what is made of a file.
fn with_files<'a>(alloc: Global, command: Command<'a>) -> Result<Command<'a>, AllocError>
    ensures { IfOk result (λ c. app_of c ≡ with_files (app_of command.entry)) }
{
    command
        .arg(option(alloc, "generate"))?
        .arg(flag(alloc, "rounds"))?
        .arg(flag(alloc, "list"))?
        .arg(flag(alloc, "parts"))
}

// With a tick that is located, an excerpt, and records.
fn with_questions<'a>(alloc: Global, command: Command<'a>) -> Result<Command<'a>, AllocError>
    ensures { IfOk result (λ c. app_of c ≡ with_questions (app_of command.entry)) }
{
    command
        .arg(option(alloc, "locate"))?
        .arg(option(alloc, "process"))?
        .arg(option(alloc, "from"))?
        .arg(option(alloc, "to"))?
        .arg(flag(alloc, "record"))?
        .arg(flag(alloc, "audit"))
}

// The command without words, whose list of words begins after the program's name.
fn bare<'a>(alloc: Global) -> Command<'a>
    ensures { app_of result ≡ bare_command }
{
    Command::new(alloc, "formula")
        .no_binary_name(true)
        .disable_help_flag(true)
}

// A text that has to be there, by its place.
fn text<'a>(alloc: Global, id: &'a str) -> Arg<'a>
    ensures rule { rule_of result ≡ text_named id.entry.now }
    ensures local { result.global ≡ false }
{
    Arg::new(alloc, id).required(true)
}

// An option with a value, which may be left out.
fn option<'a>(alloc: Global, id: &'a str) -> Arg<'a>
    ensures rule { rule_of result ≡ option_named id.entry.now }
    ensures local { result.global ≡ false }
{
    Arg::new(alloc, id).long(id)
}

// An option without a value.
fn flag<'a>(alloc: Global, id: &'a str) -> Arg<'a>
    ensures rule { rule_of result ≡ flag_named id.entry.now }
    ensures local { result.global ≡ false }
{
    Arg::new(alloc, id).action(ArgAction::SetTrue).long(id)
}
