//! Runs that list, split, locate and write excerpts, and what each leaves.

use super::runs::{Left, NO_PROCESS, READ, Row, SKIP, SKIP_REFUSED, UNTOUCHED, WRITE};
use super::{NOTE, QUARTER_FILE, SOUND};

/// The listing of a quarter note's file.
const LISTING: &[u8] = b"format 0 tracks 1 division 480
0 0 FF 51 03 07 A1 20
0 0 90 3C 40
0 432 80 3C 40
0 480 FF 2F 00
";

/// Two channels.
const TWO: &[u8] = b"formula 1; channel 0 { note c4 1/4; } channel 1 { note e4 1/4; }";

/// Its file of format 1: the tempo, and a track for each channel.
const TWO_PARTS: &[u8] = &[
    0x4D, 0x54, 0x68, 0x64, 0, 0, 0, 6, 0, 1, 0, 3, 1, 0xE0, 0x4D, 0x54, 0x72, 0x6B, 0, 0, 0, 0x0C,
    0, 0xFF, 0x51, 3, 7, 0xA1, 0x20, 0x87, 0x40, 0xFF, 0x2F, 0, 0x4D, 0x54, 0x72, 0x6B, 0, 0, 0,
    0x0E, 0, 0x90, 0x3C, 0x40, 0x83, 0x30, 0x80, 0x3C, 0x40, 0x84, 0x10, 0xFF, 0x2F, 0, 0x4D, 0x54,
    0x72, 0x6B, 0, 0, 0, 0x0E, 0x83, 0x60, 0x91, 0x40, 0x40, 0x83, 0x30, 0x81, 0x40, 0x40, 0x30,
    0xFF, 0x2F, 0,
];

/// The listing of that.
const TWO_LISTED: &[u8] = b"format 1 tracks 3 division 480
0 0 FF 51 03 07 A1 20
0 960 FF 2F 00
1 0 90 3C 40
1 432 80 3C 40
1 960 FF 2F 00
2 480 91 40 40
2 912 81 40 40
2 960 FF 2F 00
";

/// The file of an empty piece, with one track for each channel that has an event: for none.
const NO_PARTS: &[u8] = &[
    0x4D, 0x54, 0x68, 0x64, 0, 0, 0, 6, 0, 1, 0, 1, 1, 0xE0, 0x4D, 0x54, 0x72, 0x6B, 0, 0, 0, 0x0B,
    0, 0xFF, 0x51, 3, 7, 0xA1, 0x20, 0, 0xFF, 0x2F, 0,
];

/// A branch within one level, which takes twice as many ticks as the file.
const HALF: &[u8] = b"formula 1; shape s = flat ticks 1000 by 500; warp s { rest ticks 100; \
    par { branch { note c4 1/4; } } }";

/// As many processes as there can be.
const MANY_PROCESSES: &[u8] = b"formula 1; repeat 1365 { par { branch { } branch { } } }";

/// A program and two notes.
const PAIR: &[u8] = b"formula 1; program 5; note c4 1/4; note d4 1/4;";

/// Runs of further tasks, of which a read fails.
pub const UNREAD: &[Row] = &[
    (
        "a.txt b.record --record --workers 1",
        NOTE,
        (&[1], &[], &[]),
        2,
        READ,
        UNTOUCHED,
    ),
    (
        "a.txt b.mid --locate 60",
        NOTE,
        (&[2], &[], &[]),
        2,
        READ,
        UNTOUCHED,
    ),
    (
        "a.txt b.mid --parts",
        NOTE,
        (&[2], &[], &[]),
        2,
        READ,
        UNTOUCHED,
    ),
    (
        "a.txt b.mid --from 5",
        NOTE,
        (&[1], &[], &[]),
        2,
        READ,
        UNTOUCHED,
    ),
];

/// Runs that list, split, locate and write excerpts.
pub const TASKS: &[Row] = &[
    (
        "a.mid b.txt --list",
        QUARTER_FILE,
        SOUND,
        0,
        "",
        Left::Bytes(LISTING),
    ),
    (
        "a.mid --list b.txt --generate 0 --parts",
        QUARTER_FILE,
        SOUND,
        0,
        "",
        Left::Bytes(LISTING),
    ),
    (
        "a.mid b.txt --list",
        TWO_PARTS,
        SOUND,
        0,
        "",
        Left::Bytes(TWO_LISTED),
    ),
    (
        "a.mid b.txt --list",
        b"",
        (&[1], &[], &[]),
        2,
        READ,
        UNTOUCHED,
    ),
    (
        "a.mid b.txt --list",
        QUARTER_FILE,
        (&[], &[(1, 0)], &[]),
        4,
        WRITE,
        UNTOUCHED,
    ),
    (
        "a.mid b.txt --list",
        QUARTER_FILE,
        (&[], &[(1, 40)], &[]),
        4,
        WRITE,
        Left::Front(LISTING, 40),
    ),
    (
        "a.txt b.mid --parts",
        TWO,
        SOUND,
        0,
        "",
        Left::Bytes(TWO_PARTS),
    ),
    (
        "a.txt b.mid --parts",
        b"formula 1;",
        SOUND,
        0,
        "",
        Left::Bytes(NO_PARTS),
    ),
    (
        "a.txt b.mid --parts",
        SKIP,
        SOUND,
        3,
        SKIP_REFUSED,
        UNTOUCHED,
    ),
    (
        "a.txt b.mid --parts --workers 0",
        TWO,
        SOUND,
        0,
        "",
        Left::Bytes(TWO_PARTS),
    ),
    (
        "a.txt b.mid --parts --workers 0",
        b"formula 1;",
        SOUND,
        0,
        "",
        Left::Bytes(NO_PARTS),
    ),
    (
        "a.txt b.mid --parts --workers 0",
        SKIP,
        SOUND,
        3,
        SKIP_REFUSED,
        UNTOUCHED,
    ),
    (
        "a.txt b.mid --parts",
        TWO,
        (&[], &[(1, 0)], &[]),
        4,
        WRITE,
        UNTOUCHED,
    ),
    (
        "a.txt b.mid --parts",
        TWO,
        (&[], &[(1, 40)], &[]),
        4,
        WRITE,
        Left::Front(TWO_PARTS, 40),
    ),
    // a tick is located
    (
        "a.txt b.mid --locate 60 --process 1",
        HALF,
        SOUND,
        0,
        "process 1 levels 1 start 50 positions 120\n",
        UNTOUCHED,
    ),
    (
        "a.txt b.mid --locate 60",
        HALF,
        SOUND,
        0,
        "process 0 levels 0 start 0 positions\n",
        UNTOUCHED,
    ),
    (
        "a.txt b.mid --process 2 --locate 0 --parts",
        HALF,
        SOUND,
        0,
        "process 2 levels 1 start 290 positions 0\n",
        UNTOUCHED,
    ),
    (
        "a.txt b.mid --locate 60 --process 3",
        HALF,
        SOUND,
        7,
        NO_PROCESS,
        UNTOUCHED,
    ),
    // as many processes as a score of version 1 has
    (
        "a.txt b.mid --locate 0 --process 4095",
        MANY_PROCESSES,
        SOUND,
        0,
        "process 4095 levels 0 start 0 positions\n",
        UNTOUCHED,
    ),
    (
        "a.txt b.mid --locate 0 --process 4096",
        MANY_PROCESSES,
        SOUND,
        7,
        NO_PROCESS,
        UNTOUCHED,
    ),
    // excerpts
    (
        "a.txt b.mid --from 480",
        PAIR,
        SOUND,
        0,
        "",
        Left::File(&[
            0, 0xC0, 5, 0, 0x90, 0x3E, 0x40, 0x83, 0x30, 0x80, 0x3E, 0x40, 0x30, 0xFF, 0x2F, 0,
        ]),
    ),
    (
        "a.txt b.mid --from 100 --to 600",
        PAIR,
        SOUND,
        0,
        "",
        Left::File(&[
            0, 0xC0, 5, 0x82, 0x7C, 0x90, 0x3E, 0x40, 0x78, 0x80, 0x3E, 0x40, 0, 0xFF, 0x2F, 0,
        ]),
    ),
    (
        "a.txt b.mid --from 5000",
        PAIR,
        SOUND,
        0,
        "",
        Left::File(&[0, 0xC0, 5, 0, 0xFF, 0x2F, 0]),
    ),
    (
        "a.txt b.mid --to 0",
        PAIR,
        SOUND,
        0,
        "",
        Left::File(&[0, 0xFF, 0x2F, 0]),
    ),
];
