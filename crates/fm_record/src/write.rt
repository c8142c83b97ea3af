//! Numbers and steps written as bytes.

ghost use Rattle.std.specs.Prelude.{◌≡◌, ◌<◌, ◌≤◌, ◌∷◌, ◌++◌, ℕ, length, List, OnOk, OnErr};
ghost use Rattle.fm_record.specs.StepBytes.{HasFields, four, step_bytes, two};

use fm_core::Step;
use std::alloc::AllocError;

// A number in two bytes.
fn two(number: u32) -> [u8; 2]
    requires { number < 65536 }
    ensures { result ≡ two number }
{
    [(number / 0x100) as u8, (number % 0x100) as u8]
}

/// A number in four bytes, the most significant one first.
pub(crate) fn four(number: u32) -> [u8; 4]
    ensures { result ≡ four number }
{
    let [a, b] = two(number / 0x1_0000);
    let [c, d] = two(number % 0x1_0000);
    [a, b, c, d]
}

/// Appends the bytes of a step, or leaves the bytes as they are.
pub(crate) fn push_step(bytes: &mut Vec<u8>, step: &Step) -> Result<(), AllocError>
    requires { HasFields step.now }
    ensures ok { OnOk result (bytes.new.items ≡ bytes.old.items ++ step_bytes step.now) }
    ensures err { OnErr result (bytes.new.items ≡ bytes.old.items) }
{
    match *step {
        Step::Look { seat, process } => push_pair(bytes, 1, seat, process),
        Step::Claim { seat, process } => push_pair(bytes, 2, seat, process),
        Step::Start { seat, process } => push_pair(bytes, 3, seat, process),
        Step::Record { seat, process } => push_pair(bytes, 4, seat, process),
        Step::Recall { seat, process } => push_pair(bytes, 5, seat, process),
        Step::Give {
            seat,
            process,
            taken,
            computed,
            clock,
            ended,
        } => push_give(bytes, seat, process, taken, computed, clock, ended),
        Step::Publish => bytes.extend_from_slice(&[7]),
        Step::Pace { seat } => bytes.extend_from_slice(&[8, seat as u8]),
        Step::Release { count } => {
            let [a, b, c, d] = four(count);
            bytes.extend_from_slice(&[9, a, b, c, d])
        }
    }
}

// Appends the bytes of a give.
fn push_give(
    bytes: &mut Vec<u8>,
    seat: u32,
    process: u32,
    taken: u32,
    computed: u32,
    clock: u64,
    ended: bool,
) -> Result<(), AllocError>
    requires { HasFields (Step.Give seat process taken computed clock ended) }
    ensures ok { OnOk result (bytes.new.items ≡ bytes.old.items
        ++ step_bytes (Step.Give seat process taken computed clock ended)) }
    ensures err { OnErr result (bytes.new.items ≡ bytes.old.items) }
{
    let [p, q] = two(process);
    let [n, m] = two(computed);
    let [a, b] = two((clock / 0x1_0000_0000) as u32);
    let [c, d, e, f] = four((clock % 0x1_0000_0000) as u32);
    let seat = seat as u8;
    let taken = taken as u8;
    let ended = u8::from(ended);
    bytes.extend_from_slice(&[6, seat, p, q, taken, n, m, a, b, c, d, e, f, ended])
}

// Appends a kind, a seat and a process.
fn push_pair(bytes: &mut Vec<u8>, kind: u8, seat: u32, process: u32) -> Result<(), AllocError>
    requires seat { seat < 256 }
    requires process { process < 65536 }
    ensures ok { OnOk result (bytes.new.items ≡ bytes.old.items ++ kind ∷ seat ∷ two process) }
    ensures err { OnErr result (bytes.new.items ≡ bytes.old.items) }
{
    let [high, low] = two(process);
    bytes.extend_from_slice(&[kind, seat as u8, high, low])
}
