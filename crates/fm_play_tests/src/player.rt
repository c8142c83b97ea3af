//! One note, step by step.
ghost use Rattle.fm_player.specs.Player.{InCourse};

use crate::note::plan_of_a_note;
use crate::same::{same, same_number};
use fm_msg::{Event, Msg};
use fm_nest::Place;
use fm_offs::NoteOff;
use fm_player::{Plan, Player, Stepped, first, meet};
use std::process::Abort;
use std::test::*;

// The first process at its start.
fn begun(plan: &Plan) -> Player
    ensures { InCourse plan.now result }
{
    let _processes = plan.processes();
    Player::begin(plan, 0, &first())
}

// Makes a step, which has to answer this.
fn steps<R: Abort>(rt: &R, plan: &Plan, player: &mut Player, wanted: Stepped)
    requires { InCourse plan.now player.old }
    ensures { InCourse plan.now player.new }
{
    assert!(rt; player.step(plan) == wanted);
}

// Takes a note-off, which has to be this one.
fn takes<R: Abort>(rt: &R, plan: &Plan, player: &mut Player, wanted: Option<NoteOff>)
    requires { InCourse plan.now player.old }
    ensures { InCourse plan.now player.new }
{
    assert!(rt; player.take_off(plan) == wanted);
}

// Plays the note.
fn begins_and_ends<R: Abort>(rt: &R, plan: &Plan) {
    let mut player = begun(plan);
    let on = Msg::On {
        channel: 0,
        key: 60,
        velocity: 64,
    };
    let off = NoteOff {
        tick: 432,
        channel: 0,
        key: 60,
    };
    same_number(rt, player.clock(), 0);
    assert!(rt; player.pitches(plan) == 0);
    assert!(rt; !player.is_sounding(plan));
    steps(rt, plan, &mut player, Stepped::Silent);
    assert!(rt; player.pitches(plan) == 1);
    assert!(rt; player.is_sounding(plan));
    takes(rt, plan, &mut player, None);
    steps(
        rt,
        plan,
        &mut player,
        Stepped::Event(Event::new(0, 0, 0, on)),
    );
    assert!(rt; player.pitches(plan) == 0);
    assert!(rt; !player.has_ended(plan));
    takes(rt, plan, &mut player, Some(off));
    assert!(rt; player.pitches(plan) == 16);
    assert!(rt; player.has_ended(plan));
    steps(rt, plan, &mut player, Stepped::Ended);
    same_number(rt, player.clock(), 480);
    same_number(rt, player.place().position, 480);
}

#[test]
fn a_note_begins_and_its_note_off_is_taken(rt: HostRuntime) -> Result<(), Fail> {
    begins_and_ends(&rt, &plan_of_a_note(rt.alloc())?);
    Ok(())
}

#[test]
fn processes_meet_at_the_later_place(rt: HostRuntime) -> Result<(), Fail> {
    let early = first();
    let late = Place {
        position: 480,
        ..early
    };
    same(&rt, &meet(&early, &late), &late);
    same(&rt, &meet(&late, &early), &late);
    Ok(())
}
