//! The text of a large score.
ghost use Rattle.std.specs.Prelude.{◌≡◌, ◌≤◌, ◌%◌, ◌++◌, ◌↔◌};
ghost use Rattle.std.specs.Prelude.{IsTrue, IfOk, OnOk, codes, string_bytes, vec_len};
ghost use Rattle.fm_gen.specs.LargeScore.{stretch_of, notes_of, line_text, large_score};
ghost use Rattle.fm_gen.specs.LargeScore.{head, seed_line, first_shape_line, branch, voice};

use std::alloc::{AllocError, Global};

/// The greatest number of a score: a number of the text has at most nine digits.
pub const MAX_NUMBER: u32 = 999_999_999;

/// The most bytes of a score.
pub const MAX_SCORE: usize = 1596;

/// How many channels there are, with one voice on each.
const CHANNELS: u32 = 16;

/// The text of the score of a number N, which seeds its draws: sixteen voices, each on a channel
/// of its own, of `1000 * (1 + N % 125)` sixteenths. All lie under a deformation that comes to a
/// stretch of `500 + N % 1000` thousandths, and those on the odd channels under one more. Memory is
/// asked for once, `MAX_SCORE` bytes.
pub fn generate(alloc: Global, number: u32) -> Result<Vec<u8>, AllocError>
    requires { number ≤ MAX_NUMBER }
    ensures text { IfOk result (λ text. text.items ≡ large_score number) }
    ensures short { IfOk result (λ text. vec_len text ≤ MAX_SCORE) }
{
    let mut text = String::with_capacity(alloc, MAX_SCORE)?;
    push_head(&mut text, number)?;
    let notes = notes_per_voice(number);
    for channel in 0..CHANNELS {
        push_branch(&mut text, channel, notes)?;
    }
    push_end(&mut text)?;
    Ok(text.into_bytes())
}

// The stretch that the first shape comes to, in thousandths.
fn final_stretch(number: u32) -> u32
    ensures { result ≡ stretch_of number }
{
    500 + number % 1000
}

// How many notes each voice has.
fn notes_per_voice(number: u32) -> u32
    ensures { result ≡ notes_of number }
{
    1000 * (1 + number % 125)
}

// Whether the voice of a channel lies under both shapes.
fn is_doubly_warped(channel: u32) -> bool
    ensures { IsTrue result ↔ (channel % 2 ≡ 1) }
{
    channel % 2 == 1
}

// Appends what stands before the branches: the seed, both shapes and the opening of the group.
fn push_head(text: &mut String, number: u32) -> Result<(), AllocError>
    ensures { OnOk result (string_bytes text.new ≡ string_bytes text.old ++ head number) }
{
    text.push_str("formula 1;\n")?;
    push_seed(text, number)?;
    push_first_shape(text, final_stretch(number))?;
    text.push_str("shape b = pause 1/8, flat 4/1 by 1500;\npar {\n")?;
    Ok(())
}

// Appends the line of the seed.
fn push_seed(text: &mut String, number: u32) -> Result<(), AllocError>
    ensures { OnOk result
        (string_bytes text.new ≡ string_bytes text.old ++ line_text (seed_line number)) }
{
    writeln!(text, "seed {number};")
}

// Appends the line of the first shape.
fn push_first_shape(text: &mut String, stretch: u32) -> Result<(), AllocError>
    ensures { OnOk result
        (string_bytes text.new ≡ string_bytes text.old ++ line_text (first_shape_line stretch)) }
{
    writeln!(
        text,
        "shape a = slope 1/1 by 1000 to {stretch}, breath 1/16, flat 2/1 by {stretch};"
    )
}

// Appends the branch of a channel.
fn push_branch(text: &mut String, channel: u32, notes: u32) -> Result<(), AllocError>
    ensures { OnOk result
        (string_bytes text.new ≡ string_bytes text.old ++ line_text (branch notes channel)) }
{
    write!(text, "branch {{ channel {channel} {{ warp a {{ ")?;
    if is_doubly_warped(channel) {
        text.push_str("warp b { ")?;
        push_voice(text, notes)?;
        text.push_str(" } } } }\n")?;
    } else {
        push_voice(text, notes)?;
        text.push_str(" } } }\n")?;
    }
    Ok(())
}

// Appends the notes of a voice.
fn push_voice(text: &mut String, notes: u32) -> Result<(), AllocError>
    ensures { OnOk result (string_bytes text.new ≡ string_bytes text.old ++ voice notes) }
{
    write!(text, "repeat {notes} {{ note key (36 + pick(60)) 1/16; }}")
}

// Appends the end of the group.
fn push_end(text: &mut String) -> Result<(), AllocError>
    ensures { OnOk result (string_bytes text.new ≡ string_bytes text.old ++ line_text (codes "}")) }
{
    text.push_str("}\n")
}
