//! Names that are defined again, and names of one key.

use crate::same::same;
use fm_names::Names;
use std::alloc::{AllocError, Global};
use std::process::Abort;

/// A name and what it stands for from here on.
type Definition = (&'static [u8], u32);

const VERSES: &[Definition] = &[(b"verse", 1), (b"coda", 2), (b"verse", 3)];

const CHORUSES: &[Definition] = &[
    (b"first_chorus", 1),
    (b"other_chorus", 2),
    (b"other_chorus", 3),
    (b"first_chorus", 4),
];

// A table of these definitions.
fn defined(
    alloc: Global,
    definitions: &'static [Definition],
) -> Result<Names<'static, u32>, AllocError> {
    let mut names = Names::new(alloc);
    for (name, value) in definitions {
        names.define(name, *value)?;
    }
    Ok(names)
}

/// A name and what it stands for, if it was defined.
type Asked = (&'static [u8], Option<u32>);

const IN_VERSES: &[Asked] = &[(b"verse", Some(3)), (b"coda", Some(2)), (b"cod", None)];

const IN_CHORUSES: &[Asked] = &[
    (b"first_chorus", Some(4)),
    (b"other_chorus", Some(3)),
    (b"third_chorus", None),
];

// Behind these definitions names stand for this.
fn stand_for<R: Abort + AllocGlobal>(
    rt: &R,
    definitions: &'static [Definition],
    asked: &[Asked],
) -> Result<(), AllocError> {
    let names = defined(rt.alloc(), definitions)?;
    for (name, want) in asked {
        same(rt, &names.get(name).copied(), want);
    }
    Ok(())
}

#[test]
fn latest_definition_counts(rt: HostRuntime) -> Result<(), AllocError> {
    stand_for(&rt, VERSES, IN_VERSES)
}

#[test]
fn names_of_one_key_are_told_apart(rt: HostRuntime) -> Result<(), AllocError> {
    stand_for(&rt, CHORUSES, IN_CHORUSES)
}
