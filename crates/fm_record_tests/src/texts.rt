//! What the faults of records and of runs say.

use crate::same::same;
use fm_audit::{AuditFault, BadHeader};
use fm_core::Reason;
use fm_lex::Spot;
use fm_tell::RunFault;
use std::alloc::{AllocError, Global};
use std::fmt::Display;
use std::process::Abort;

/// Why a record is not accepted.
const AUDITS: &[(AuditFault, &str)] = &[
    (
        AuditFault::BadStep { position: 7 },
        "no step begins at byte 7 of the steps",
    ),
    (
        AuditFault::Refused {
            step: 3,
            reason: Reason::NoSeat,
        },
        "step 3 is refused: NoSeat",
    ),
    (
        AuditFault::Unfinished { steps: 22 },
        "the run breaks off after 22 steps",
    ),
    (AuditFault::Sink, "the file could not be written"),
    (AuditFault::Memory, "out of memory"),
];

/// Why a run does not do what it was asked to.
const RUNS: &[(RunFault, &str)] = &[
    (RunFault::Words, "words refused"),
    (RunFault::Read, "read fault"),
    (
        RunFault::Score {
            spot: Spot { line: 2, column: 9 },
            number: 8,
        },
        "score refused: 2:9 fault 8",
    ),
    (
        RunFault::File {
            position: 41,
            number: 23,
        },
        "file refused: byte 41 fault 23",
    ),
    (
        RunFault::Record {
            position: 5,
            number: 44,
        },
        "record refused: 5 fault 44",
    ),
    (RunFault::NoProcess, "no such process"),
    (RunFault::Write, "write fault"),
    (RunFault::Memory, "out of memory"),
];

// What a fault says.
fn said<T: Display>(alloc: Global, fault: &T) -> Result<String, AllocError> {
    format!(in alloc; "{fault}")
}

// A fault says this.
fn says<R: Abort + AllocGlobal, T: Display>(
    rt: &R,
    fault: &T,
    wanted: &str,
) -> Result<(), AllocError> {
    let text = said(rt.alloc(), fault)?;
    same(rt, &text.as_str(), &wanted);
    Ok(())
}

#[test]
fn faults_of_records_say_what_they_are(rt: HostRuntime) -> Result<(), AllocError> {
    for (fault, wanted) in AUDITS {
        says(&rt, fault, wanted)?;
    }
    let wanted = "byte 10: no record of a run begins like this";
    says(&rt, &BadHeader { position: 10 }, wanted)
}

#[test]
fn faults_of_runs_say_what_they_are(rt: HostRuntime) -> Result<(), AllocError> {
    for (fault, wanted) in RUNS {
        says(&rt, fault, wanted)?;
    }
    Ok(())
}
