//! What each operation of a program does.
ghost use Rattle.std.specs.Prelude.{◌≡◌, ◌≤◌, ◌<◌, ◌-◌, ◌/◌, length, map, true, Some, pos, neg_ℤ, ◌^◌, ◌≤ℤ◌, IsTrue, ◌⊎◌};
ghost use Rattle.std.specs.List.{list_all};
ghost use Rattle.fm_value.specs.declared.registers.TheConstants.{REGISTERS};
ghost use Rattle.fm_msg.specs.declared.msg.TheConstants.{CHANNELS, DATA_VALUES};
ghost use Rattle.fm_msg.specs.Message.{is_in_range};
ghost use Rattle.fm_program.specs.declared.op.TheConstants.{MAX_PERCENT};
ghost use Rattle.fm_program.specs.Parts.{process_program};
ghost use Rattle.fm_program.specs.Action as action;
ghost use Rattle.fm_program.specs.Action.{action_of, amount_of, chord_at, duration_of, expr_at, list_at, parts_at, repeats_of, scope_at};
ghost use Rattle.fm_program.specs.State.{Standing};
ghost use Rattle.fm_program.specs.Run.{done};
ghost use Rattle.fm_program.specs.Run as run;
ghost use Rattle.fm_program.specs.Fit.{count_fits, draw_fits, expr_fits, loops_of, op_fits, point_fits, span_fits, turn_fits};
ghost use Rattle.fm_player.specs.Course.{step_event};
ghost use Rattle.fm_player.specs.Player.{Answers, CanDo, Does, IsController};

use crate::draws::nearest_to;
use crate::pending::Pending;
use crate::{Player, Stepped};
use fm_msg::{Event, Msg};
use fm_pattern::end_of;
use fm_program::{Count, Draw, Op, Plan, Point, Span, Turn};

impl Player {
    /// Does the operation that comes next.
    #[inline(never)]
    pub(crate) fn operate(&mut self, plan: &Plan, op: &Op) -> Stepped
        ghost state: { Standing }
        requires can { CanDo plan.now self.old state (action_of plan.now.stock op.now) }
        requires op { let size = length (process_program plan.now self.old.process).ops in
            op_fits plan.now.stock size self.old.operation op.now ≡ true }
        ensures does { Does plan.now self.old self.new state (action_of plan.now.stock op.now) }
        ensures note { (self.new.note ≡ self.old.note) ⊎ (self.new.note.given ≡ 0) }
        ensures answer { Answers (done (action_of plan.now.stock op.now) state) result }
    {
        match *op {
            Op::Send {
                point,
                channel,
                draw,
                scope,
            } => Stepped::Event(self.send(plan, point, channel, draw, scope)),
            Op::Note {
                chord,
                span,
                channel,
                gate,
                loud,
                scope,
            } => {
                self.play(plan, chord, span, channel, gate, loud, scope);
                Stepped::Silent
            }
            Op::Rest { span, scope } => {
                self.rest(plan, span, scope);
                Stepped::Silent
            }
            Op::Set {
                register,
                expr,
                scope,
            } => {
                self.set(plan, register, expr, scope);
                Stepped::Silent
            }
            Op::Test { expr, scope, past } => {
                self.test(plan, expr, scope, past);
                Stepped::Silent
            }
            Op::Jump { target } => {
                self.jump(plan, target);
                Stepped::Silent
            }
            Op::Loop { count, scope, past } => {
                self.open_loop(plan, count, scope, past);
                Stepped::Silent
            }
            Op::Again { back } => {
                self.again(plan, back);
                Stepped::Silent
            }
            Op::Begin { list } => {
                self.open_list(plan, list);
                Stepped::Silent
            }
            Op::Close => {
                self.close(plan);
                Stepped::Silent
            }
            Op::Enter { warp } => {
                self.enter(plan, warp);
                Stepped::Silent
            }
            Op::Leave => {
                self.leave(plan);
                Stepped::Silent
            }
        }
    }

    // Draws a note, whose events are then pending.
    fn play(
        &mut self,
        plan: &Plan,
        chord: u32,
        span: Span,
        channel: u8,
        gate: Turn,
        loud: Turn,
        scope: u32,
    )
        ghost state: { Standing }
        requires can { let t = plan.now.stock in CanDo plan.now self.old state
            (action.note (map (amount_of t) (chord_at t chord)) (duration_of t span)
            channel gate loud (scope_at t scope)) }
        requires chord { chord < length plan.now.stock.chords }
        requires scope { scope < length plan.now.stock.scopes }
        requires keys { let t = plan.now.stock in
            list_all (draw_fits t (loops_of t scope) (pos 0) (pos (DATA_VALUES - 1)))
            (chord_at t chord) ≡ true }
        requires span { let t = plan.now.stock in span_fits t (loops_of t scope) span ≡ true }
        requires channel { channel < CHANNELS }
        requires gate { turn_fits 0 MAX_PERCENT gate ≡ true }
        requires loud { turn_fits 1 (DATA_VALUES - 1) loud ≡ true }
        ensures does { let t = plan.now.stock in Does plan.now self.old self.new state
            (action.note (map (amount_of t) (chord_at t chord)) (duration_of t span)
            channel gate loud (scope_at t scope)) }
        ensures note { self.new.note.given ≡ 0 }
    {
        let stock = plan.stock();
        let note = self.draws.note(stock, chord, span, gate, loud, scope);
        let end = end_of(self.time.position(), note.ticks, note.percent);
        let onset = self.time.tick();
        let ending = onset.max(self.time.sound(plan.warps(), end, note.ticks));
        let velocity = note.velocity as u8;
        let events = 2 * note.keys.len() as u32;
        self.note = Pending::note(note.keys, channel, velocity, onset, ending, self.index);
        self.index += events;
        self.operation += 1;
    }

    fn rest(&mut self, plan: &Plan, span: Span, scope: u32)
        ghost state: { Standing }
        requires can { let t = plan.now.stock in
            CanDo plan.now self.old state (action.rest (duration_of t span) (scope_at t scope)) }
        requires scope { scope < length plan.now.stock.scopes }
        requires span { let t = plan.now.stock in span_fits t (loops_of t scope) span ≡ true }
        ensures does { let t = plan.now.stock in
            Does plan.now self.old self.new state
            (action.rest (duration_of t span) (scope_at t scope)) }
        ensures note { self.new.note ≡ self.old.note }
    {
        let ticks = self.draws.duration(plan.stock(), span, scope);
        self.time.advance(plan.warps(), ticks);
        self.operation += 1;
    }

    // A message at the present position.
    fn send(&mut self, plan: &Plan, point: Point, channel: u8, draw: Draw, scope: u32) -> Event
        ghost state: { Standing }
        requires can { let t = plan.now.stock in
            CanDo plan.now self.old state
            (action.send point channel (amount_of t draw) (scope_at t scope)) }
        requires scope { scope < length plan.now.stock.scopes }
        requires channel { channel < CHANNELS }
        requires point { let t = plan.now.stock in
            point_fits t (loops_of t scope) point draw ≡ true }
        ensures does { let t = plan.now.stock in
            Does plan.now self.old self.new state
            (action.send point channel (amount_of t draw) (scope_at t scope)) }
        ensures note { self.new.note ≡ self.old.note }
        ensures event { let t = plan.now.stock in
            step_event
            (done (action.send point channel (amount_of t draw) (scope_at t scope)) state)
            ≡ Some result }
    {
        let value = self.draws.number(plan.stock(), draw, scope);
        let index = self.index;
        self.index += 1;
        self.operation += 1;
        Event::new(
            self.time.tick(),
            self.process,
            index,
            point_msg(point, channel, value),
        )
    }

    fn set(&mut self, plan: &Plan, register: u8, expr: u32, scope: u32)
        ghost state: { Standing }
        requires can { let t = plan.now.stock in
            CanDo plan.now self.old state
            (action.assign register (expr_at t expr) (scope_at t scope)) }
        requires scope { scope < length plan.now.stock.scopes }
        requires register { register < REGISTERS }
        requires expr { let t = plan.now.stock in expr_fits t (loops_of t scope) expr ≡ true }
        ensures does { let t = plan.now.stock in
            Does plan.now self.old self.new state
            (action.assign register (expr_at t expr) (scope_at t scope)) }
        ensures note { self.new.note ≡ self.old.note }
    {
        self.draws.set(plan.stock(), register, expr, scope);
        self.operation += 1;
    }

    fn test(&mut self, plan: &Plan, expr: u32, scope: u32, past: u32)
        ghost state: { Standing }
        requires can { let t = plan.now.stock in
            CanDo plan.now self.old state (action.choose (expr_at t expr) (scope_at t scope) past) }
        requires scope { scope < length plan.now.stock.scopes }
        requires expr { let t = plan.now.stock in expr_fits t (loops_of t scope) expr ≡ true }
        ensures does { let t = plan.now.stock in
            Does plan.now self.old self.new state
            (action.choose (expr_at t expr) (scope_at t scope) past) }
        ensures note { self.new.note ≡ self.old.note }
    {
        let value = self.draws.value(plan.stock(), expr, scope);
        self.operation = if value > 0 {
            self.operation + 1
        } else {
            past as usize
        };
    }

    fn jump(&mut self, plan: &Plan, target: u32)
        ghost state: { Standing }
        requires can { CanDo plan.now self.old state (action.jump target) }
        ensures does { Does plan.now self.old self.new state (action.jump target) }
        ensures note { self.new.note ≡ self.old.note }
    {
        self.operation = target as usize;
    }

    fn open_loop(&mut self, plan: &Plan, count: Count, scope: u32, past: u32)
        ghost state: { Standing }
        requires can { let t = plan.now.stock in
            CanDo plan.now self.old state
            (action.loop (repeats_of t count) (scope_at t scope) past) }
        requires scope { scope < length plan.now.stock.scopes }
        requires count { let t = plan.now.stock in count_fits t (loops_of t scope) count ≡ true }
        ensures does { let t = plan.now.stock in
            Does plan.now self.old self.new state
            (action.loop (repeats_of t count) (scope_at t scope) past) }
        ensures note { self.new.note ≡ self.old.note }
    {
        let rounds = self.draws.count(plan.stock(), count, scope);
        if rounds == 0 {
            self.operation = past as usize;
        } else {
            self.operation += 1;
            self.draws
                .open_loop(plan.stock(), rounds - 1, self.operation);
        }
    }

    fn again(&mut self, plan: &Plan, back: u32)
        ghost state: { Standing }
        requires can { CanDo plan.now self.old state (action.again back) }
        ensures does { Does plan.now self.old self.new state (action.again back) }
        ensures note { self.new.note ≡ self.old.note }
    {
        let goes_round = self.draws.goes_round(plan.stock());
        self.operation = if goes_round {
            back as usize
        } else {
            self.operation + 1
        };
    }

    fn open_list(&mut self, plan: &Plan, list: u32)
        ghost state: { Standing }
        requires can { CanDo plan.now self.old state (action.begin (list_at plan.now.stock list)) }
        requires list { list < length plan.now.stock.lists }
        ensures does { Does plan.now self.old self.new state
            (action.begin (list_at plan.now.stock list)) }
        ensures note { self.new.note ≡ self.old.note }
    {
        self.draws.open_list(plan.stock(), list);
        self.operation += 1;
    }

    fn close(&mut self, plan: &Plan)
        ghost state: { Standing }
        requires can { CanDo plan.now self.old state action.close }
        ensures does { Does plan.now self.old self.new state action.close }
        ensures note { self.new.note ≡ self.old.note }
    {
        self.draws.close(plan.stock());
        self.operation += 1;
    }

    fn enter(&mut self, plan: &Plan, warp: u32)
        ghost state: { Standing }
        requires can { CanDo plan.now self.old state
            (action.enter warp (parts_at plan.now.stock warp)) }
        requires warp { warp < length plan.now.stock.warps }
        ensures does { Does plan.now self.old self.new state
            (action.enter warp (parts_at plan.now.stock warp)) }
        ensures note { self.new.note ≡ self.old.note }
    {
        self.time.enter(plan.warps(), warp);
        self.operation += 1;
    }

    fn leave(&mut self, plan: &Plan)
        ghost state: { Standing }
        requires can { CanDo plan.now self.old state action.leave }
        ensures does { Does plan.now self.old self.new state action.leave }
        ensures note { self.new.note ≡ self.old.note }
    {
        self.time.leave(plan.warps());
        self.operation += 1;
    }
}

// The message of a point with this value.
fn point_msg(point: Point, channel: u8, value: i64) -> Msg
    requires channel { channel < CHANNELS }
    requires controller { IsController point }
    requires low { neg_ℤ (pos (2 ^ 31)) ≤ℤ value }
    requires high { value ≤ℤ pos (2 ^ 31) }
    ensures value { result ≡ run.point_msg point channel value }
    ensures range { IsTrue (is_in_range result) }
{
    match point {
        Point::Control { controller } => Msg::Control {
            channel,
            controller,
            value: nearest_to(127, value) as u8,
        },
        Point::Program => Msg::Program {
            channel,
            program: nearest_to(127, value) as u8,
        },
        Point::Bend => Msg::Bend {
            channel,
            bend: nearest_to(16_383, value + 8_192) as u16,
        },
    }
}
