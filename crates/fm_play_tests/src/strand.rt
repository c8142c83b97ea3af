//! Plans run whole and in pieces.
ghost use Rattle.fm_strand.specs.Calls.{IsBegun};
ghost use Rattle.fm_strand.specs.Strand.{InCourse};

mod cuts;
mod overlaps;
mod rich;

use crate::note::plan_of_a_note;
use crate::same::same_number;
use fm_msg::{Event, Msg};
use fm_strand::{Plan, Stepped, Strand, first};
use std::process::Abort;
use std::test::*;

// The first process at its start.
fn begun(plan: &Plan) -> Strand
    ensures { IsBegun plan.now 0 result }
{
    let _processes = plan.processes();
    Strand::begin(plan, 0, &first())
}

// Makes a step, which has to answer this.
fn steps<R: Abort>(rt: &R, plan: &Plan, strand: &mut Strand, wanted: Stepped)
    requires { InCourse plan.now strand.old }
    ensures { InCourse plan.now strand.new }
{
    assert!(rt; strand.step(plan) == wanted);
}

// Plays the note.
fn sounds_and_ends<R: Abort>(rt: &R, plan: &Plan) {
    let mut strand = begun(plan);
    same_number(rt, strand.clock(), 0);
    steps(rt, plan, &mut strand, Stepped::Silent);
    let on = Msg::On {
        channel: 0,
        key: 60,
        velocity: 64,
    };
    steps(
        rt,
        plan,
        &mut strand,
        Stepped::Event(Event::new(0, 0, 0, on)),
    );
    same_number(rt, strand.clock(), 432);
    let off = Msg::Off {
        channel: 0,
        key: 60,
    };
    steps(
        rt,
        plan,
        &mut strand,
        Stepped::Event(Event::new(432, 0, 1, off)),
    );
    steps(rt, plan, &mut strand, Stepped::Ended);
    same_number(rt, strand.clock(), 480);
    same_number(rt, strand.place().position, 480);
}

#[test]
fn a_note_sounds_and_ends(rt: HostRuntime) -> Result<(), Fail> {
    sounds_and_ends(&rt, &plan_of_a_note(rt.alloc())?);
    Ok(())
}
