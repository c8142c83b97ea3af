//! What statements add at most.

ghost use Rattle.std.specs.Prelude.{◌≡◌, ℕ, ◌+◌, ◌*◌, ◌^◌, ◌<◌, length};
ghost use Rattle.fm_expansion.specs.Outline.{Tables as PlainTables, play_in, passage_in};
ghost use Rattle.fm_expansion.specs.Outline.{chord_in, parts_in, length_of, rounds_of};
ghost use Rattle.fm_meaning.specs.Bounds.{totals, most_span, most_count, warped_length};
ghost use Rattle.fm_outline.specs.View.{Look, tables_view, lasting_view, step_view, block_view};
ghost use Rattle.fm_outline.specs.Forking.{AreMarked, IsMarked};
ghost use Rattle.fm_outline.specs.View.{phrase_at};
ghost use Rattle.fm_check.specs.Saturation.{capped, saturated};
ghost use Rattle.fm_check.specs.Weight.{weight_of, weight_in, KnowsWeights};

use crate::totals::sums::{CEILING, Sums, cap};
use fm_outline::{Instruction, Lasting, Step, Tables};
use fm_program::Count;
use fm_tick::MAX_TICK;

// How long a duration is at most, where no rhythm has an entry longer than this.
#[tactic(auto, using(crate::proofs::SaturationLemmas::capped_twice))]
fn most_ticks(longest: u64, lasting: Lasting) -> u64
    ensures { (n : ℕ) (t : PlainTables) → longest ≡ capped n →
        capped result ≡ capped (most_span n (length_of t (lasting_view lasting))) }
{
    match lasting {
        Lasting::Ticks { ticks } => u64::from(ticks),
        Lasting::Computed { most, .. } => u64::from(most),
        Lasting::Beat => longest,
    }
}

// How many pitches a chord has.
fn pitches(tables: &Tables, chord: u32) -> usize
    ensures value { result ≡ length (chord_in (tables_view tables.now) chord) }
    ensures few { result < 2 ^ 63 }
{
    match tables.chords.get(chord as usize) {
        Some(chord) => chord.len(),
        None => 0,
    }
}

// A note of so many pitches.
fn note(ticks: u64, pitches: usize) -> Sums
    requires { pitches < 2 ^ 63 }
    ensures { result ≡ saturated (totals 0 1 ticks (2 * pitches) (2 * pitches + 1)) }
{
    let offs_and_ons = 2 * pitches as u64;
    Sums::single(ticks, offs_and_ons, offs_and_ons + 1)
}

// How often a loop goes round at most.
fn most_rounds(count: Count) -> u32
    ensures { (t : PlainTables) → result ≡ most_count (rounds_of t count) }
{
    match count {
        Count::Fixed { count } => count,
        Count::Drawn { most, .. } => most,
    }
}

// What a deformation makes of a length.
#[tactic(auto, using(crate::proofs::SumsLemmas::warped), unfolding(crate::specs::Saturation::capped))]
fn warped(tables: &Tables, number: u32, ticks: u64) -> u64
    ensures { (n : ℕ) → ticks ≡ capped n →
        result ≡ capped (warped_length (parts_in (tables_view tables.now) number) n) }
{
    if ticks > MAX_TICK {
        return CEILING;
    }
    match tables.warps.get(number as usize) {
        Some(warp) => cap(warp.at(ticks)),
        None => ticks,
    }
}

// What the phrase of a number adds at most.
#[tactic(auto, using(crate::proofs::SumsLemmas::none_saturated))]
fn weigh_phrase(phrases: &[Sums], number: Option<u32>) -> Sums
    ensures { (t : PlainTables) (n : ℕ) (look : Look) → KnowsWeights t phrases.now n look →
        result ≡ weight_in n (passage_in t (phrase_at look number)) }
{
    match number {
        Some(n) => match phrases.get(n as usize) {
            Some(sums) => *sums,
            None => Sums::NONE,
        },
        None => Sums::NONE,
    }
}

/// What a statement adds at most.
#[cycle(weigh)]
#[inline(never)]
pub(crate) fn weigh_step(tables: &Tables, phrases: &[Sums], longest: u64, step: &Step) -> Sums
    ensures { (n : ℕ) (look : Look) → longest ≡ capped n → IsMarked look step.now →
        KnowsWeights (tables_view tables.now) phrases.now n look →
        result ≡ weight_of n (play_in (tables_view tables.now) (step_view look step.now).what) }
{
    match &step.what {
        Instruction::Note { chord, lasting } => {
            note(most_ticks(longest, *lasting), pitches(tables, *chord))
        }
        Instruction::Rest { lasting } => Sums::single(most_ticks(longest, *lasting), 0, 1),
        Instruction::Send { .. } => Sums::single(0, 1, 1),
        Instruction::Set { .. } => Sums::single(0, 0, 1),
        Instruction::Choice { yes, no, .. } => weigh_steps(tables, phrases, longest, yes).either(
            weigh_steps(tables, phrases, longest, no),
        ),
        Instruction::Loop { count, body } => {
            weigh_steps(tables, phrases, longest, body).repeated(most_rounds(*count), step.forks())
        }
        Instruction::Phrase { number } => weigh_phrase(phrases, *number).inside(1, 0),
        Instruction::Par { branches } => {
            let mut sums = Sums::JOINED;
            for branch in branches {
                sums = sums.beside(weigh_steps(tables, phrases, longest, branch));
            }
            sums
        }
        Instruction::Warp { number, body } => {
            let inside = weigh_steps(tables, phrases, longest, body).inside(2, 2);
            Sums {
                length: warped(tables, *number, inside.length),
                ..inside
            }
        }
        Instruction::Channel { body, .. } => {
            weigh_steps(tables, phrases, longest, body).inside(1, 0)
        }
        Instruction::Steady { body, .. } => {
            weigh_steps(tables, phrases, longest, body).inside(1, 0)
        }
        Instruction::Under { body, .. } => weigh_steps(tables, phrases, longest, body).inside(2, 2),
    }
}

/// What statements in turn add at most.
#[cycle(weigh)]
pub(crate) fn weigh_steps(tables: &Tables, phrases: &[Sums], longest: u64, steps: &[Step]) -> Sums
    ensures { (n : ℕ) (look : Look) → longest ≡ capped n → AreMarked look steps.now →
        KnowsWeights (tables_view tables.now) phrases.now n look →
        result ≡ weight_in n (passage_in (tables_view tables.now) (block_view look steps.now)) }
{
    let mut sums = Sums::NONE;
    for step in steps {
        sums = sums.plus(weigh_step(tables, phrases, longest, step));
    }
    sums
}
