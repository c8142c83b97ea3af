//! Steps read from bytes.

ghost use Rattle.std.specs.Prelude.{◌≡◌, ◌+◌, ◌<◌, ◌≤◌, length, IfSome, IsNone};
ghost use Rattle.fm_record.specs.StepBytes.{Begins, IsFirst};
ghost use Rattle.fm_record.specs.Reading.{byte_at, made, read, size_of, two_at, four_at, six_at};

use fm_core::Step;

// How many bytes a step of this kind has; 0 of no kind.
fn size_of(kind: u8) -> usize
    ensures { result ≡ size_of kind }
{
    match kind {
        1..=5 => 4,
        6 => 14,
        7 => 1,
        8 => 2,
        9 => 5,
        _ => 0,
    }
}

// The number in the two bytes from a position on.
fn two_at(bytes: &[u8], position: usize) -> u32
    requires { position + 2 ≤ length bytes.now }
    ensures value { result ≡ two_at bytes.now position }
    ensures small { result < 65536 }
{
    u32::from(bytes[position]) * 0x100 + u32::from(bytes[position + 1])
}

/// The number in the four bytes from a position on.
pub(crate) fn four_at(bytes: &[u8], position: usize) -> u32
    requires { position + 4 ≤ length bytes.now }
    ensures value { result ≡ four_at bytes.now position }
{
    two_at(bytes, position) * 0x1_0000 + two_at(bytes, position + 2)
}

// The number in the six bytes from a position on.
fn six_at(bytes: &[u8], position: usize) -> u64
    requires { position + 6 ≤ length bytes.now }
    ensures value { result ≡ six_at bytes.now position }
{
    u64::from(two_at(bytes, position)) * 0x1_0000_0000 + u64::from(four_at(bytes, position + 2))
}

// The step that whole fields make.
fn made(bytes: &[u8]) -> Option<Step>
    requires some { 0 < length bytes.now }
    requires whole { size_of (byte_at bytes.now 0) ≤ length bytes.now }
    ensures { result ≡ made bytes.now }
{
    match bytes[0] {
        1 => Some(Step::Look {
            seat: u32::from(bytes[1]),
            process: two_at(bytes, 2),
        }),
        2 => Some(Step::Claim {
            seat: u32::from(bytes[1]),
            process: two_at(bytes, 2),
        }),
        3 => Some(Step::Start {
            seat: u32::from(bytes[1]),
            process: two_at(bytes, 2),
        }),
        4 => Some(Step::Record {
            seat: u32::from(bytes[1]),
            process: two_at(bytes, 2),
        }),
        5 => Some(Step::Recall {
            seat: u32::from(bytes[1]),
            process: two_at(bytes, 2),
        }),
        6 => given(bytes),
        7 => Some(Step::Publish),
        8 => Some(Step::Pace {
            seat: u32::from(bytes[1]),
        }),
        9 => Some(Step::Release {
            count: four_at(bytes, 1),
        }),
        _ => None,
    }
}

// The give that whole fields make.
fn given(bytes: &[u8]) -> Option<Step>
    requires kind { byte_at bytes.now 0 ≡ 6 }
    requires whole { 14 ≤ length bytes.now }
    ensures { result ≡ made bytes.now }
{
    let answer = bytes[13];
    if answer > 1 {
        return None;
    }
    Some(Step::Give {
        seat: u32::from(bytes[1]),
        process: two_at(bytes, 2),
        taken: u32::from(bytes[4]),
        computed: two_at(bytes, 5),
        clock: six_at(bytes, 7),
        ended: answer == 1,
    })
}

/// The step that the bytes begin with, and how many bytes it has; none exactly where no step
/// begins them.
pub fn read_step(bytes: &[u8]) -> Option<(Step, usize)>
    requires { 0 < length bytes.now }
    ensures value { result ≡ read bytes.now }
    ensures first { IfSome result (λ r. IsFirst bytes.now r.0 r.1) }
    ensures none { IsNone result → Begins bytes.now → ⊥ }
{
    let size = size_of(bytes[0]);
    if bytes.len() < size {
        return None;
    }
    let step = made(bytes)?;
    Some((step, size))
}
