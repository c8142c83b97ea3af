//! One whole score, the length of the longest, and two lines.

use crate::same::same;
use fm_gen::{MAX_NUMBER, MAX_SCORE, Summary, generate};
use std::alloc::AllocError;

/// The score of the number 0, as another program writes it.
const SCORE_OF_0: &str = "\
formula 1;
seed 0;
shape a = slope 1/1 by 1000 to 500, breath 1/16, flat 2/1 by 500;
shape b = pause 1/8, flat 4/1 by 1500;
par {
branch { channel 0 { warp a { repeat 1000 { note key (36 + pick(60)) 1/16; } } } }
branch { channel 1 { warp a { warp b { repeat 1000 { note key (36 + pick(60)) 1/16; } } } } }
branch { channel 2 { warp a { repeat 1000 { note key (36 + pick(60)) 1/16; } } } }
branch { channel 3 { warp a { warp b { repeat 1000 { note key (36 + pick(60)) 1/16; } } } } }
branch { channel 4 { warp a { repeat 1000 { note key (36 + pick(60)) 1/16; } } } }
branch { channel 5 { warp a { warp b { repeat 1000 { note key (36 + pick(60)) 1/16; } } } } }
branch { channel 6 { warp a { repeat 1000 { note key (36 + pick(60)) 1/16; } } } }
branch { channel 7 { warp a { warp b { repeat 1000 { note key (36 + pick(60)) 1/16; } } } } }
branch { channel 8 { warp a { repeat 1000 { note key (36 + pick(60)) 1/16; } } } }
branch { channel 9 { warp a { warp b { repeat 1000 { note key (36 + pick(60)) 1/16; } } } } }
branch { channel 10 { warp a { repeat 1000 { note key (36 + pick(60)) 1/16; } } } }
branch { channel 11 { warp a { warp b { repeat 1000 { note key (36 + pick(60)) 1/16; } } } } }
branch { channel 12 { warp a { repeat 1000 { note key (36 + pick(60)) 1/16; } } } }
branch { channel 13 { warp a { warp b { repeat 1000 { note key (36 + pick(60)) 1/16; } } } } }
branch { channel 14 { warp a { repeat 1000 { note key (36 + pick(60)) 1/16; } } } }
branch { channel 15 { warp a { warp b { repeat 1000 { note key (36 + pick(60)) 1/16; } } } } }
}
";

#[test]
fn the_score_of_0_is_the_stated_text(rt: HostRuntime) -> Result<(), AllocError> {
    let text = generate(rt.alloc(), 0)?;
    same(&rt, &text.as_slice(), &SCORE_OF_0.as_bytes());
    Ok(())
}

#[test]
fn the_greatest_number_has_the_longest_score(rt: HostRuntime) -> Result<(), AllocError> {
    let text = generate(rt.alloc(), MAX_NUMBER)?;
    same(&rt, &text.len(), &MAX_SCORE);
    Ok(())
}

const LINES: &[(Summary, &str)] = &[
    (
        Summary {
            processes: 18,
            events: 32_000,
            last: 121_800,
            bytes: 128_033,
        },
        "processes 18 events 32000 last 121800 bytes 128033\n",
    ),
    (
        Summary {
            processes: 1,
            events: 0,
            last: 0,
            bytes: 33,
        },
        "processes 1 events 0 last 0 bytes 33\n",
    ),
];

#[test]
fn the_line_names_its_numbers(rt: HostRuntime) {
    for (summary, line) in LINES {
        same(&rt, &summary.line().as_str(), line);
    }
}
