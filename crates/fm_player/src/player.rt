//! A process of a plan as it runs.
ghost use Rattle.std.specs.Prelude.{◌≡◌, ℕ, ◌+◌, ◌^◌, ◌<◌, ◌≤◌, length, slice_get, true, false, Some, None, IfSome, IfNone};
ghost use Rattle.std.specs.Option.{option_copied};
ghost use Rattle.fm_msg.specs.Event.{TimedMessage};
ghost use Rattle.fm_line.specs.Line.{line, start};
ghost use Rattle.fm_line.specs.Sounds.{come_out, most_waiting, numbered};
ghost use Rattle.fm_program.specs.Parts.{PlanParts, process_program};
ghost use Rattle.fm_program.specs.Process.{plan_lines};
ghost use Rattle.fm_player.specs.Course.{start_place, steps_of};
ghost use Rattle.fm_offs.specs.Stack.{IsOff};
ghost use Rattle.fm_player.specs.Sounding.{is_at_off};
ghost use Rattle.fm_player.specs.Ahead.{Begins, NoteGoes, TakesOff, pitches_ahead, sounds};
ghost use Rattle.fm_player.specs.Player.{InCourse, MakesStep, clock_of, is_send, next_event, place_reached, steps_left};

use crate::Stepped;
use crate::draws::Draws;
use crate::pending::Pending;
use crate::timeline::Timeline;
use fm_nest::Place;
use fm_offs::NoteOff;
use fm_program::{MAX_PITCHES, Op, Plan};
use std::marker::{Send, Sync};

/// A process of a plan after so many steps.
#[derive(Drop)]
pub struct Player {
    pub(crate) process: u32,
    /// How many steps were made.
    pub(crate) made: u32,
    /// The operation of the program that comes next.
    pub(crate) operation: usize,
    /// The number of the next event.
    pub(crate) index: u32,
    pub(crate) draws: Draws,
    pub(crate) time: Timeline,
    pub(crate) note: Pending,
}

impl Player {
    ghost use Rattle.fm_player.specs.declared.player.Player.{Player};

    /// The process at its start, which lies at the place.
    pub fn begin(plan: &Plan, process: u32, place: &Place) -> Player
        requires process { process < length plan.now.programs }
        requires place { place.now ≡ start_place plan.now process }
        ensures process { result.process ≡ process }
        ensures course { InCourse plan.now result }
        ensures clock { clock_of plan.now result ≡ start (plan_lines plan.now) process }
        ensures line { (line (plan_lines plan.now) process).events
            ≡ numbered process 0 (come_out (sounds plan.now result)
            (line (plan_lines plan.now) process).end) }
        ensures steps { steps_left plan.now result ≡ steps_of plan.now process }
        ensures made { result.made ≡ 0 }
        ensures note { result.note.given ≡ 0 }
    {
        let program = plan.program(process);
        let state = plan.seed().wrapping_add(u64::from(process));
        Player {
            process,
            made: 0,
            operation: 0,
            index: 0,
            draws: Draws::new(plan.stock(), state, program.cycles.as_slice()),
            time: Timeline::new(plan.warps(), program.levels.as_slice(), place),
            note: Pending::none(),
        }
    }

    /// The tick before which it gives no event any more, where no note-off is next.
    pub fn clock(&self) -> u64
        ensures { (p : PlanParts) → InCourse p self.now
            → is_at_off self.now.note ≡ false → result ≡ clock_of p self.now }
    {
        match self.note.time() {
            Some(time) => time,
            None => self.time.tick(),
        }
    }

    /// Whether two of its numbers show that the clock is at most a limit. False says nothing, and
    /// so does any answer where a note-off is next.
    pub fn is_within(&self, limit: u64) -> bool
        ensures { (p : PlanParts) → InCourse p self.now → is_at_off self.now.note ≡ false
            → result ≡ true → clock_of p self.now ≤ limit }
    {
        if self.note.onset() <= limit {
            self.time.tick() <= limit
        } else {
            false
        }
    }

    /// Where it is in its levels.
    pub fn place(&self) -> Place
        ensures { (p : PlanParts) → InCourse p self.now → result ≡ place_reached p self.now }
    {
        self.time.place()
    }

    /// Makes one step.
    #[inline(always)]
    pub fn step(&mut self, plan: &Plan) -> Stepped
        requires { InCourse plan.now self.old }
        ensures step { MakesStep plan.now self.old result self.new }
        ensures note { NoteGoes self.old.note self.new.note }
    {
        if self.note.is_left() {
            let event = self.note.take(self.process);
            self.made += 1;
            return Stepped::Event(event);
        }
        match self.next_op(plan) {
            None => Stepped::Ended,
            Some(op) => {
                let stepped = self.operate(plan, op);
                self.made += 1;
                stepped
            }
        }
    }

    /// How many pitches begin where it stands, before anything else sounds: those that are left of
    /// a note that has begun or is to begin; as many as may wait where no step is left; else none.
    pub fn pitches(&self, plan: &Plan) -> usize
        requires { InCourse plan.now self.now }
        ensures value { result ≡ pitches_ahead plan.now self.now }
        ensures begins { Begins plan.now self.now result }
        ensures few { result ≤ most_waiting }
    {
        let left = self.note.ons_left();
        if left > 0 {
            return left;
        }
        match self.note.time() {
            Some(_) => 0,
            None => match self.next_op(plan) {
                Some(_) => 0,
                None => MAX_PITCHES,
            },
        }
    }

    /// Gives the next note-off, where its next step gives one; else nothing changes.
    pub fn take_off(&mut self, plan: &Plan) -> Option<NoteOff>
        requires { InCourse plan.now self.old }
        ensures course { InCourse plan.now self.new }
        ensures some { IfSome result (λ off. TakesOff plan.now self.old off self.new) }
        ensures range { IfSome result IsOff }
        ensures none { IfNone result (is_at_off self.old.note ≡ false) }
        ensures same { IfNone result (self.new ≡ self.old) }
    {
        if !self.note.is_at_off() {
            return None;
        }
        let off = self.note.take_off();
        self.made += 1;
        Some(off)
    }

    // The operation that comes next.
    fn next_op<'a>(&self, plan: &'a Plan) -> Option<&'a Op>
        requires { self.now.process < length plan.now.programs }
        ensures op { option_copied result
            ≡ slice_get (process_program plan.now self.now.process).ops self.now.operation }
        ensures small { IfSome result (λ _. self.now.operation + 1 < 2 ^ 64) }
    {
        let ops = plan.program(self.process).ops.as_slice();
        if self.operation < ops.len() {
            Some(&ops[self.operation])
        } else {
            None
        }
    }

    /// Whether no step is left.
    pub fn has_ended(&self, plan: &Plan) -> bool
        requires { InCourse plan.now self.now }
        ensures yes { result ≡ true → steps_left plan.now self.now ≡ 0 }
        ensures not_yet { result ≡ false → 0 < steps_left plan.now self.now }
    {
        match self.note.time() {
            Some(_) => false,
            None => match self.next_op(plan) {
                Some(_) => false,
                None => true,
            },
        }
    }

    /// Whether the next step gives an event.
    pub fn is_sounding(&self, plan: &Plan) -> bool
        requires { InCourse plan.now self.now }
        ensures sounds { result ≡ true
            → (e : TimedMessage) × (next_event plan.now self.now ≡ Some e) }
        ensures quiet { result ≡ false → next_event plan.now self.now ≡ None }
    {
        match self.note.time() {
            Some(_) => true,
            None => match self.next_op(plan) {
                Some(op) => sends(*op),
                None => false,
            },
        }
    }
}

// Whether an operation gives an event by itself.
fn sends(op: Op) -> bool
    ensures { result ≡ is_send op }
{
    match op {
        Op::Send { .. } => true,
        _ => false,
    }
}

fn crosses_threads<T: Send + Sync>(_value: &T) {}

// Threads may be sent players and may share them.
fn player_crosses_threads(player: &Player) {
    crosses_threads(player);
}
