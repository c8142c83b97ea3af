//! What the processes of a plan compute, as far as their operations tell.
ghost use Rattle.std.specs.Prelude.{◌≡◌, ◌≤◌, IfSome};
ghost use Rattle.std.specs.Option.{is_some};
ghost use Rattle.fm_program.specs.Parts.{program_parts};
ghost use Rattle.fm_effort.specs.Effort.{Surroundings, all_effort, are_looked_at, effort_at};
ghost use Rattle.fm_effort.specs.Effort.{op_events, op_work, program_effort, span_work};
ghost use Rattle.fm_effort.specs.Kept.{Encloses, load_for, with_effort};

use crate::enclosing::Enclosing;
use fm_program::{Op, Plan, Program, Span};

/// Programs with more operations are not looked at.
const MOST_OPERATIONS: usize = 65_536;

/// What an operation takes at least, in nanoseconds. This and the next three figures are rough.
const OPERATION: u64 = 20;

/// What a note or another message takes besides.
const SOUND: u64 = 80;

/// What a level of deformation adds to each onset and to each note-off.
const LEVEL: u64 = 15;

/// What an expression adds.
const EXPRESSION: u64 = 100;

/// What processes compute.
#[derive(Clone, Copy, Drop)]
pub struct Load {
    /// How long that takes, in nanoseconds.
    pub work: u64,
    /// How many events they make at least.
    pub events: u64,
}

/// What all processes of a plan compute. None where their programs are long.
pub fn load_of(plan: &Plan) -> Option<Load>
    ensures some { IfSome result (λ load. load ≡ load_for (all_effort plan.now.programs)) }
    ensures exact { is_some result ≡ are_looked_at plan.now.programs }
{
    let mut load = Load { work: 0, events: 0 };
    let mut operations: usize = 0;
    for process in 0..plan.processes() {
        let program = plan.program(process);
        operations = operations.saturating_add(program.ops.len());
        if operations > MOST_OPERATIONS {
            return None;
        }
        load = with_program(load, program);
    }
    Some(load)
}

// The load with that of a program.
fn with_program(load: Load, program: &Program) -> Load
    ensures { result ≡ with_effort load (program_effort (program_parts program.now)) }
{
    let ops = program.ops.as_slice();
    let mut whole = load;
    let mut enclosing = Enclosing::new(program.levels.len() as u64);
    for (at, op) in ops.iter().enumerate() {
        whole = with_operation(whole, op, &enclosing, at < enclosing.sure);
        enclosing.pass(op);
    }
    whole
}

// The load with that of an operation, in all rounds of the loops round it. One that may be
// left out adds no events.
fn with_operation(load: Load, op: &Op, enclosing: &Enclosing, is_left_out: bool) -> Load
    ensures { (a : Surroundings) → Encloses enclosing.now a →
        result ≡ with_effort load (effort_at is_left_out a op.now) }
{
    let rounds = enclosing.rounds();
    let one = load_of_one(op, enclosing.levels);
    let events = if is_left_out {
        0
    } else {
        one.events.saturating_mul(rounds)
    };
    Load {
        work: load.work.saturating_add(one.work.saturating_mul(rounds)),
        events: load.events.saturating_add(events),
    }
}

// What an operation takes once, in so many levels.
#[tactic(auto, unfolding(crate::specs::Effort::counted))]
fn load_of_one(op: &Op, levels: u64) -> Load
    ensures { result
        ≡ load_for (record { work = op_work levels op.now; events = op_events op.now }) }
{
    let moves = levels.saturating_mul(LEVEL);
    match op {
        Op::Note { span, .. } => Load {
            work: moves
                .saturating_mul(2)
                .saturating_add(OPERATION + SOUND + drawn(span)),
            events: 2,
        },
        Op::Rest { span, .. } => Load {
            work: moves.saturating_add(OPERATION + drawn(span)),
            events: 0,
        },
        Op::Send { .. } => Load {
            work: moves.saturating_add(OPERATION + SOUND + EXPRESSION),
            events: 1,
        },
        Op::Set { .. } | Op::Test { .. } => Load {
            work: OPERATION + EXPRESSION,
            events: 0,
        },
        _ => Load {
            work: OPERATION,
            events: 0,
        },
    }
}

// What the expression of a duration takes, if it has one.
fn drawn(span: &Span) -> u64
    ensures value { result ≡ span_work span.now }
    ensures few { result ≤ EXPRESSION }
{
    match span {
        Span::Drawn { .. } => EXPRESSION,
        Span::Ticks { .. } | Span::Cycle { .. } => 0,
    }
}
