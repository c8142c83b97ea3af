//! What the faults of the crates below and of the check say, with expected texts by hand.

use crate::same::says;
use fm_check::{CheckFault, Why};
use fm_lex::{LexFault, Spot};
use fm_parse::ParseFault;
use std::alloc::AllocError;

const SPOT: Spot = Spot {
    line: 2,
    column: 31,
};

const PARSES: &[(ParseFault, &str)] = &[
    (
        ParseFault::Lex(LexFault::BadByte { spot: SPOT }),
        "2:31: no token begins with this byte",
    ),
    (
        ParseFault::Expected { spot: SPOT },
        "2:31: this token can't stand here",
    ),
    (
        ParseFault::TooNested { spot: SPOT },
        "2:31: at most 64 braces are open, and an expression has at most 64 tokens",
    ),
    (ParseFault::Memory, "out of memory"),
];

const CHECKS: &[(CheckFault, &str)] = &[
    (
        CheckFault::Refused {
            why: Why::NotTicks,
            spot: SPOT,
        },
        "2:31: fault 8",
    ),
    (
        CheckFault::Refused {
            why: Why::TooLong,
            spot: SPOT,
        },
        "2:31: fault 15",
    ),
    (CheckFault::Memory, "out of memory"),
];

#[test]
fn faults_say_their_spot_and_why(rt: HostRuntime) -> Result<(), AllocError> {
    for (fault, text) in PARSES {
        says(&rt, fault, text)?;
    }
    for (fault, text) in CHECKS {
        says(&rt, fault, text)?;
    }
    Ok(())
}
