//! Bytes from the tables of the standard, and one caller.
use crate::same::same;
use fm_msg::{DIVISION, Event, Msg, Profile};
use std::cmp::Ordering;
use std::process::Abort;

/// Messages, how many bytes each has, and what lies in three bytes then, which were AA.
const MESSAGES: &[(Msg, usize, [u8; 3])] = &[
    (
        Msg::On {
            channel: 0,
            key: 60,
            velocity: 64,
        },
        3,
        [0x90, 0x3C, 0x40],
    ),
    (
        Msg::Off {
            channel: 9,
            key: 127,
        },
        3,
        [0x89, 0x7F, 0x40],
    ),
    (
        Msg::Control {
            channel: 0,
            controller: 7,
            value: 100,
        },
        3,
        [0xB0, 0x07, 0x64],
    ),
    (
        Msg::Program {
            channel: 15,
            program: 5,
        },
        2,
        [0xCF, 0x05, 0xAA],
    ),
    (
        Msg::Bend {
            channel: 0,
            bend: 0,
        },
        3,
        [0xE0, 0x00, 0x00],
    ),
    (
        Msg::Bend {
            channel: 0,
            bend: 8_192,
        },
        3,
        [0xE0, 0x00, 0x40],
    ),
    (
        Msg::Bend {
            channel: 1,
            bend: 16_383,
        },
        3,
        [0xE1, 0x7F, 0x7F],
    ),
];

// A message has the bytes of its row.
fn has_bytes<R: Abort>(rt: &R, row: &(Msg, usize, [u8; 3])) {
    let (msg, count, bytes) = *row;
    assert!(rt; msg.is_in_range());
    let mut out = [0xAA; 3];
    let found = msg.bytes(&mut out);
    same(rt, &(found, out), &(count, bytes));
}

#[test]
fn each_message_has_the_bytes_of_the_standard(rt: HostRuntime) {
    for row in MESSAGES {
        has_bytes(&rt, row);
    }
}

#[test]
fn events_at_one_tick_go_by_process_and_index(rt: HostRuntime) {
    let on = Msg::On {
        channel: 0,
        key: 60,
        velocity: 64,
    };
    let off = Msg::Off {
        channel: 0,
        key: 60,
    };
    let first = Event::new(480, 1, 7, off);
    let second = Event::new(480, 2, 0, on);
    let order = (first < second, second.order(&first));
    same(&rt, &order, &(true, Ordering::Greater));
    let parts = (first.time(), first.process(), first.index(), first.msg());
    same(&rt, &parts, &(480, 1, 7, off));
}

#[test]
fn files_have_480_ticks_a_quarter_note_or_any_division(rt: HostRuntime) {
    let first = Profile::first();
    let second = Profile::second(96);
    let found = (first.running, first.division, DIVISION);
    same(&rt, &found, &(false, 480, 480));
    same(&rt, &(second.running, second.division), &(true, 96));
}
