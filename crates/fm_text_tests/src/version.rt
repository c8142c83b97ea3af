//! The rules of both versions, and lengths in ticks.

use crate::same::same;
use fm_grammar::{Head, Length, Number};
use fm_lex::Spot;
use fm_msg::Profile;
use fm_rules::{FIRST_VERSION, LAST_VERSION, rules_of, ticks_of};

fn number(value: u32) -> Number {
    Number {
        value,
        spot: Spot { line: 1, column: 1 },
    }
}

fn share(over: u32, under: u32) -> Length {
    Length::Share {
        over: number(over),
        under: number(under),
    }
}

// What the rules of a head are: whether they have running status, the ticks of a quarter and of a
// whole note, and the most processes.
fn rules(version: u32, division: Option<Number>) -> (bool, u16, u32, u32) {
    let rules = rules_of(Head {
        version: number(version),
        division,
        seed: None,
    });
    let Profile { running, division } = rules.profile;
    (running, division, rules.whole_note, rules.most_processes)
}

#[test]
fn first_version(rt: HostRuntime) {
    let found = rules(FIRST_VERSION, None);
    same(&rt, &found, &(false, 480, 1_920, 4_096));
}

#[test]
fn last_version(rt: HostRuntime) {
    let stated = rules(LAST_VERSION, Some(number(96)));
    same(&rt, &stated, &(true, 96, 384, 16_384));
    same(&rt, &rules(LAST_VERSION, None).1, &480);
}

/// The ticks of a whole note, a share of it, and the ticks of the share.
const SHARES: &[(u32, (u32, u32), u64)] = &[
    (1_920, (3, 8), 720),
    (1_920, (1, 0), 0),
    (1_920, (1, 3), 640),
    (384, (1, 3), 128),
];

#[test]
fn lengths_in_ticks(rt: HostRuntime) {
    for (whole, (over, under), ticks) in SHARES {
        same(&rt, &ticks_of(*whole, &share(*over, *under)), ticks);
    }
    let seven = Length::Ticks { count: number(7) };
    same(&rt, &ticks_of(1_920, &seven), &7);
}
