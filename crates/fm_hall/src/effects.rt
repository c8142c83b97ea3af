//! What an allowed step does.
ghost use Rattle.std.specs.Prelude.{◌≡◌, ◌+◌, ◌^◌, ◌<◌, ◌≤◌, length};
ghost use Rattle.fm_core.specs.State.{cell};
ghost use Rattle.fm_core.specs.Steps.{Allowed};
ghost use Rattle.fm_core.specs.Effects.{after, claimed, begun, noted, given};
ghost use Rattle.fm_core.specs.Invariant.{Sound};
ghost use Rattle.fm_state.specs.Stored.{IsHall};
ghost use Rattle.fm_hall.specs.Looks.{entered};

use crate::handover::Handover;
use fm_core::{Cell, Step, Tag};
use fm_state::{Rules, Tables, sight_of, start_of, waiting_events};

// What a seat sees at a process is entered in its sweep. A look at the last process of the sweep
// leaves it, so nothing is read off the lines for it.
fn enter_look(rules: &Rules, tables: &mut Tables, seat: u32, process: u32)
    requires seat { seat < length tables.old.state.desks }
    requires process { process < length tables.old.state.cells }
    requires lined { length tables.old.state.cells ≡ length rules.now.lines }
    ensures { tables.new ≡ record tables.old {
      state = entered rules.now tables.old.state seat process;
    } }
{
    if process != 0 && process as usize != tables.sweep(seat).len() {
        return;
    }
    let sight = sight_of(rules, tables, tables.sweep(seat), process);
    tables.enter(seat, process, sight);
}

fn look(rules: &Rules, tables: &mut Tables, seat: u32, process: u32)
    requires hall { IsHall rules.now tables.old }
    requires allowed { Allowed rules.now tables.old.state (Step.Look seat process) }
    ensures { tables.new ≡ record tables.old {
      state = after rules.now tables.old.state (Step.Look seat process);
    } }
{
    let visits = seat == 0 && tables.cell(process).tag.has_nothing();
    enter_look(rules, tables, seat, process);
    if visits {
        tables.visit(process);
    }
}

fn claim(rules: &Rules, tables: &mut Tables, seat: u32, process: u32)
    requires { Allowed rules.now tables.old.state (Step.Claim seat process) }
    ensures { tables.new ≡ record tables.old {
      state = after rules.now tables.old.state (Step.Claim seat process);
    } }
{
    let from = tables.cell(process);
    let tag = from.tag.claimed();
    tables.set_cell(process, Cell { tag, seat, ..from });
}

fn start(rules: &Rules, tables: &mut Tables, seat: u32, process: u32)
    requires lined { length tables.old.state.cells ≡ length rules.now.lines }
    requires allowed { Allowed rules.now tables.old.state (Step.Start seat process) }
    ensures { tables.new ≡ record tables.old {
      state = after rules.now tables.old.state (Step.Start seat process);
    } }
{
    let from = tables.cell(process);
    let clock = start_of(rules, process);
    tables.set_cell(
        process,
        Cell {
            tag: Tag::Out,
            clock,
            seat,
            ..from
        },
    );
}

fn record_end(rules: &Rules, tables: &mut Tables, seat: u32, process: u32)
    requires { Allowed rules.now tables.old.state (Step.Record seat process) }
    ensures { tables.new ≡ record tables.old {
      state = after rules.now tables.old.state (Step.Record seat process);
    } }
{
    let from = tables.cell(process);
    tables.set_cell(
        process,
        Cell {
            recorded: true,
            ..from
        },
    );
}

fn give(rules: &Rules, tables: &mut Tables, seat: u32, process: u32, handed: Handover)
    requires hall { IsHall rules.now tables.old }
    requires allowed { Allowed rules.now tables.old.state
        (Step.Give seat process handed.taken handed.computed handed.clock handed.ended) }
    ensures { tables.new ≡ record tables.old {
      state = after rules.now tables.old.state
          (Step.Give seat process handed.taken handed.computed handed.clock handed.ended);
    } }
{
    let from = tables.cell(process);
    let next = given_cell(rules.room(), from, handed);
    let visits = seat == 0 && tables.due().is_due();
    tables.take(&waiting_events(rules, tables, process)[..handed.taken as usize]);
    tables.set_cell(process, next);
    if visits {
        tables.visit(process);
    }
}

// A process that comes home.
fn given_cell(room: u32, from: Cell, handed: Handover) -> Cell
    requires computed { from.computed + handed.computed < 2 ^ 32 }
    requires taken { from.taken + handed.taken ≤ from.computed + handed.computed }
    ensures { result
        ≡ given room from handed.taken handed.computed handed.clock handed.ended }
{
    let computed = from.computed + handed.computed;
    let taken = from.taken + handed.taken;
    Cell {
        tag: Tag::given(room, handed.ended, computed - taken),
        clock: handed.clock,
        seat: 0,
        computed,
        taken,
        recorded: from.recorded,
    }
}

fn publish(rules: &Rules, tables: &mut Tables)
    requires { IsHall rules.now tables.old }
    ensures { tables.new ≡ record tables.old {
      state = after rules.now tables.old.state Step.Publish;
    } }
{
    tables.publish(tables.least(0));
}

/// Takes an allowed step.
pub(crate) fn take_step(rules: &Rules, tables: &mut Tables, step: Step)
    requires hall { IsHall rules.now tables.old }
    requires allowed { Allowed rules.now tables.old.state step }
    ensures { tables.new ≡ record tables.old { state = after rules.now tables.old.state step } }
{
    match step {
        Step::Look { seat, process } => look(rules, tables, seat, process),
        Step::Claim { seat, process } => claim(rules, tables, seat, process),
        Step::Start { seat, process } => start(rules, tables, seat, process),
        Step::Record { seat, process } => record_end(rules, tables, seat, process),
        Step::Recall { .. } => {}
        Step::Give {
            seat,
            process,
            taken,
            computed,
            clock,
            ended,
        } => {
            let handed = Handover {
                taken,
                computed,
                clock,
                ended,
            };
            give(rules, tables, seat, process, handed)
        }
        Step::Publish => publish(rules, tables),
        Step::Pace { seat } => tables.pace(seat),
        Step::Release { .. } => tables.release(),
    }
}
