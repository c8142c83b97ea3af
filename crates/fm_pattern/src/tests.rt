//! Lists that go round, and ends of notes.
use crate::{Artic, Loud, MAX_ENTRIES, MAX_GATE, MAX_ONSET, Rhythm, end_of};
use std::process::Abort;

fn checked_end<R: Abort>(rt: &R, on: u64, duration: u32, gate: u32) -> u64 {
    assert!(rt; on <= MAX_ONSET && gate <= MAX_GATE);
    end_of(on, duration, gate)
}

#[test]
fn the_first_entry_comes_again_after_the_last(rt: HostRuntime) {
    let list = [480, 240, 120];
    let mut rhythm = Rhythm::new();
    let first = [rhythm.next(&list), rhythm.next(&list), rhythm.next(&list)];
    let again = [rhythm.next(&list), rhythm.next(&list), rhythm.next(&list)];
    assert_eq!(rt; first, list);
    assert_eq!(rt; again, list);
    assert_eq!(rt; rhythm.next(&list), 480);
    let mut loud = Loud::new();
    assert_eq!(rt;
        [loud.next(&[100]), loud.next(&[100]), loud.next(&[100])],
        [100; 3]
    );
}

#[test]
fn three_notes_of_two_durations_and_two_articulations(rt: HostRuntime) {
    let durations = [480, 240];
    let percents = [50, 100];
    let mut rhythm = Rhythm::new();
    let mut artic = Artic::new();
    let first = checked_end(&rt, 0, rhythm.next(&durations), artic.next(&percents));
    let second = checked_end(&rt, 480, rhythm.next(&durations), artic.next(&percents));
    let third = checked_end(&rt, 720, rhythm.next(&durations), artic.next(&percents));
    assert_eq!(rt; [first, second, third], [240, 720, 960]);
}

/// An onset, a duration and a gate, and the end of the note.
const ENDS: &[(u64, u32, u32, u64)] = &[
    (0, 480, 90, 432),
    (7, 1, 99, 7),
    (7, 1, 100, 8),
    (7, 3, 150, 11),
    (7, 1, 400, 11),
    (7, 480, 0, 7),
    (MAX_ONSET, 1_000_000, 400, 1_099_515_627_776),
];

#[test]
fn note_ends_are_rounded_down(rt: HostRuntime) {
    for (on, duration, gate, end) in ENDS {
        assert!(rt; *on <= MAX_ONSET && *gate <= MAX_GATE);
        assert_eq!(rt;
            end_of(*on, *duration, *gate),
            *end,
            "at {on}, {duration}, {gate}"
        );
    }
    assert_eq!(rt; MAX_ENTRIES, 256);
}
