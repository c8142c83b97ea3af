//! Small scores played by a conductor and one worker, whose time slices begin in the order that a
//! script says.
use crate::runs::{run_at, sum_of};
use fm_edge::{Gate, Moment};
use std::alloc::{AllocError, Global};
use std::hint::spin_loop;
use std::process::Abort;
use std::sync::Wait;
use std::sync::atomic::{AtomicU64, Ordering};
use std::test::Fail;
use std::thread::Threads;

/// Scores of several processes, how many bytes their files have, and their sums as [`sum_of`] takes
/// them; another program computed these.
const SCORES: &[(&str, (usize, u32))] = &[
    (
        "formula 1; par { branch { note c4 1/4; note d4 1/4; } branch { note e4 1/4; note f4 \
         1/4; } }",
        (67, 1_244_758_127),
    ),
    (
        "formula 1; par { branch { repeat 6 { note c4 1/16; } } branch { repeat 3 { note g3 1/8; \
         } } }",
        (105, 1_021_457_455),
    ),
    (
        "formula 1; note c4 1/4; par { branch { note d4 1/4; } branch { note e4 1/2; } } note f4 \
         1/4;",
        (69, 2_550_631_437),
    ),
    (
        "formula 1; par { branch { par { branch { note c4 1/4; } branch { note e4 1/8; } } note \
         f4 1/4; } branch { note g4 1/2; } }",
        (68, 2_235_432_509),
    ),
    (
        "formula 1; par { branch { rest 1/2; note c4 1/4; } branch { note e4 1/4; rest 1/2; } }",
        (52, 3_698_773_924),
    ),
    (
        "formula 1; par { branch { } branch { note c4 1/4; } branch { } branch { note d4 1/4; } \
         }",
        (50, 734_476_355),
    ),
    (
        "formula 1; repeat 3 { par { branch { note c4 1/8; } branch { note e4 1/16; } } }",
        (81, 3_634_867_465),
    ),
    (
        "formula 1; par { branch { note c4 ticks 1; } branch { note d4 ticks 1; } branch { note \
         e4 ticks 1; } } par { branch { note f4 ticks 1; } branch { note g4 ticks 1; } }",
        (73, 1_102_295_803),
    ),
    (
        "formula 1; par { branch { note c4, e4, g4 1/2; } branch { repeat 4 { note c5 1/8; } } } \
         note c4 1/4;",
        (102, 3_563_051_605),
    ),
    (
        "formula 1; par { branch { par { branch { par { branch { note c4 1/4; } branch { note d4 \
         1/4; } } note e4 1/4; } branch { note f4 1/4; } } note g4 1/4; } branch { repeat 5 { \
         note a4 1/16; } } }",
        (115, 1_021_886_784),
    ),
    (
        "formula 1; par { branch { repeat 40 { note c4 ticks 3; } } branch { repeat 30 { note e4 \
         ticks 4; } } branch { repeat 24 { note g4 ticks 5; } } }",
        (785, 2_019_464_379),
    ),
    (
        "formula 1; par { branch { note c4 ticks 100000; } branch { repeat 10 { note d4 ticks \
         10000; } } }",
        (141, 73_997_095),
    ),
    (
        "formula 1; par { branch { rest ticks 7; } branch { rest ticks 9; } } note c4 1/4; par { \
         branch { rest ticks 2; } branch { note d4 ticks 5; } }",
        (50, 1_518_219_147),
    ),
    (
        "formula 1; par { branch { note c1 1/8; } branch { note c2 1/8; } branch { note c3 1/8; \
         } branch { note c4 1/8; } branch { note c5 1/8; } branch { note c6 1/8; } branch { note \
         c7 1/8; } branch { note c8 1/8; } }",
        (98, 3_503_522_113),
    ),
    (
        "formula 1; note c4 1/4; par { branch { repeat 2 { par { branch { note d4 1/16; } branch \
         { note e4 1/32; } } } } branch { note f4 1/4; } } note g4 1/4;",
        (92, 3_670_999_135),
    ),
    (
        "formula 1; par { branch { repeat 20 { note c4 ticks 10; } } branch { note e4 ticks 200; \
         } } par { branch { note d4 ticks 200; } branch { repeat 20 { note f4 ticks 10; } } }",
        (369, 1_560_976_846),
    ),
    (
        "formula 1; par { branch { note c4 1/4; } } par { branch { note d4 1/4; } } par { branch \
         { note e4 1/4; } }",
        (60, 3_081_812_349),
    ),
    (
        "formula 1; par { branch { repeat 16 { note c4, e4 ticks 6; } } branch { repeat 16 { \
         note d4 ticks 6; } } branch { rest ticks 96; } branch { repeat 12 { note g4 ticks 8; } \
         } }",
        (513, 3_961_317_130),
    ),
    (
        "formula 1; par { branch { note c4 ticks 0; } branch { note d4 ticks 0; } } note e4 \
         ticks 0;",
        (57, 14_285_109),
    ),
    (
        "formula 1; repeat 2 { note c4 1/8; } par { branch { repeat 2 { note d4 1/8; } par { \
         branch { note e4 1/8; } branch { note f4 1/8; } } } branch { par { branch { note g4 \
         1/8; } branch { note a4 1/8; } } repeat 2 { note b4 1/8; } } }",
        (118, 3_238_893_365),
    ),
];

/// Who begins the next time slice, over and over: the conductor is 0, the worker 1.
const SCRIPTS: &[&[u32]] = &[
    &[0],
    &[1],
    &[0, 1],
    &[1, 1, 0],
    &[0, 0, 0, 1, 1],
    &[1, 0, 0, 1, 1, 1, 0, 1],
];

/// The words of two runs of each score, and how many scripts are skipped in each.
const WAYS: &[(&str, usize)] = &[
    ("a b --workers 1 --room 1 --lead 0", 0),
    ("a b --workers 1", 3),
];

/// How often a thread looks whether its turn has come, before it goes on all the same.
const TURNS: u32 = 2_000;

/// Holds a time slice back until the script's next turn is its actor's, or for a while.
#[derive(Drop)]
struct ScriptedGate {
    script: &'static [u32],
    begun: AtomicU64,
}

impl ScriptedGate {
    fn is_turn_of(&self, actor: u32) -> bool {
        let begun = self.begun.load(Ordering::SeqCst);
        let length = (self.script.len() as u64).max(1);
        self.script.get((begun % length) as usize) == Some(&actor)
    }
}

impl Gate for ScriptedGate {
    fn pass(&self, actor: u32, _process: u32, moment: Moment) {
        if moment == Moment::End {
            return;
        }
        for _turn in 0..TURNS {
            if self.is_turn_of(actor) {
                break;
            }
            spin_loop();
        }
        self.begun.fetch_add(1, Ordering::SeqCst);
    }
}

// Plays a text by a script, and gives the size and the sum of its file.
fn play_by<R: Abort + Threads + Wait + Sync>(
    rt: &R,
    alloc: Global,
    words: &str,
    text: &str,
    script: &'static [u32],
) -> Result<(usize, u32), AllocError> {
    let gate = ScriptedGate {
        script,
        begun: AtomicU64::new(0),
    };
    let ran = run_at(rt, alloc, words, text.as_bytes(), &[], &gate)?;
    assert_eq!(rt; ran.status, 0, "at {text}");
    Ok((ran.sink.content().len(), sum_of(ran.sink.content())))
}

#[test]
fn scores_have_their_files_in_each_order(rt: HostRuntime) -> Result<(), Fail> {
    let alloc = rt.alloc();
    for (row, (text, wanted)) in SCORES.iter().enumerate() {
        for (words, skipped) in WAYS {
            if let Some(script) = SCRIPTS.get((row % 3).wrapping_add(*skipped)) {
                let file = play_by(&rt, alloc, words, text, script)?;
                assert_eq!(rt; file, *wanted, "at {text} by {script:?}");
            }
        }
    }
    Ok(())
}
