//! Why a step is refused: each function tries the tests of one step in their order.
ghost use Rattle.std.specs.Prelude.{◌≡◌, ◌+◌, ◌^◌, ◌<◌, length, not, ◌&&◌, ◌||◌, nat_lt};
ghost use Rattle.fm_line.specs.Line.{upper};
ghost use Rattle.fm_core.specs.Numbers.{any_below};
ghost use Rattle.fm_core.specs.State.{Setting, cell, desk};
ghost use Rattle.fm_core.specs.Floors.{within};
ghost use Rattle.fm_core.specs.Tags as words;
ghost use Rattle.fm_core.specs.Steps.{first, reason, waits, wrong_clock, wrong_end};
ghost use Rattle.fm_core.specs.Invariant.{Sound};
ghost use Rattle.fm_hall.specs.Given.{given_table};

use crate::handover::Handover;
use fm_core::{Cell, Floor, Reason, Step};
use fm_line::Line;
use fm_state::{Rules, Tables, must_be_taken, time_at};

/// Whether some predecessor of a process is not ended.
pub(crate) fn is_waiting(rules: &Rules, tables: &Tables, process: u32) -> bool
    requires lined { length tables.now.state.cells ≡ length rules.now.lines }
    requires process { process < length tables.now.state.cells }
    ensures { result ≡ waits rules.now tables.now.state process }
{
    let predecessors = rules.predecessors(process);
    for i in 0..predecessors.len() {
        if !tables.cell(predecessors[i]).tag.is_ended() {
            return true;
        }
    }
    false
}

// Whether one of the events to be computed is above the floor plus the lead.
fn is_above_lead(own: &Line, from: usize, count: usize, floor: Floor, lead: u64) -> bool
    requires { from + count < 2 ^ 64 }
    ensures { result ≡ any_below count (λ i. not (within floor lead (upper own.now (from + i)))) }
{
    for index in 0..count {
        if !floor.is_within(lead, time_at(own, from + index)) {
            return true;
        }
    }
    false
}

// Whether more events are to be computed than are left, or any of an ended process.
fn is_wrong_count(own: &Line, from: Cell, computed: u32) -> bool
    ensures { result ≡ nat_lt (length own.now.events) (from.computed + computed)
        || words.is_ended from.tag && nat_lt 0 computed }
{
    (own.events.as_slice().len() as u64) < from.computed as u64 + computed as u64
        || from.tag.is_ended() && 0 < computed
}

// Whether the outbox, less the taken and with the computed events, passes the room.
fn is_over_room(room: u32, from: Cell, handed: Handover) -> bool
    ensures { result
        ≡ nat_lt (room + from.taken + handed.taken) (from.computed + handed.computed) }
{
    room as u64 + from.taken as u64 + (handed.taken as u64)
        < from.computed as u64 + handed.computed as u64
}

// Whether the clock falls, passes the next event or the end, or moves though ended.
fn is_wrong_clock(own: &Line, from: Cell, handed: Handover) -> bool
    ensures { result ≡ wrong_clock own.now from handed.computed handed.clock }
{
    handed.clock < from.clock
        || time_at(own, from.computed as usize + handed.computed as usize) < handed.clock
        || from.tag.is_ended() && handed.clock != from.clock
}

// Whether an ended process does not stay ended, or one ends too early.
fn is_wrong_end(own: &Line, from: Cell, handed: Handover) -> bool
    ensures { result ≡ wrong_end own.now from handed.computed handed.clock handed.ended }
{
    from.tag.is_ended() && !handed.ended
        || handed.ended
            && (from.computed as usize + (handed.computed as usize) < own.events.as_slice().len()
                || handed.clock != own.end
                || !from.recorded)
}

fn why_not_look(tables: &Tables, seat: u32, process: u32) -> Option<Reason>
    ensures { (g : Setting) → result ≡ reason g tables.now.state (Step.Look seat process) }
{
    if seat >= tables.seats() {
        return Some(Reason::NoSeat);
    }
    if process >= tables.processes() {
        return Some(Reason::NoProcess);
    }
    let next = tables.sweep(seat).len();
    if process != 0 && process as usize != next && process as usize + 1 != next {
        return Some(Reason::OutOfTurn);
    }
    None
}

fn why_not_claim(tables: &Tables, seat: u32, process: u32) -> Option<Reason>
    ensures { (g : Setting) → result ≡ reason g tables.now.state (Step.Claim seat process) }
{
    if seat >= tables.seats() {
        return Some(Reason::NoSeat);
    }
    if process >= tables.processes() {
        return Some(Reason::NoProcess);
    }
    if tables.is_holding(seat) {
        return Some(Reason::Holding);
    }
    if !tables.cell(process).tag.is_claimable(seat) {
        return Some(Reason::NotClaimable);
    }
    None
}

fn why_not_start(rules: &Rules, tables: &Tables, seat: u32, process: u32) -> Option<Reason>
    requires { length tables.now.state.cells ≡ length rules.now.lines }
    ensures { result ≡ reason rules.now tables.now.state (Step.Start seat process) }
{
    if seat >= tables.seats() {
        return Some(Reason::NoSeat);
    }
    if process >= tables.processes() {
        return Some(Reason::NoProcess);
    }
    if tables.is_holding(seat) {
        return Some(Reason::Holding);
    }
    if !tables.cell(process).tag.is_unborn() {
        return Some(Reason::NotUnborn);
    }
    if is_waiting(rules, tables, process) {
        return Some(Reason::PredecessorLive);
    }
    None
}

fn why_not_record(tables: &Tables, seat: u32, process: u32) -> Option<Reason>
    ensures { (g : Setting) → result ≡ reason g tables.now.state (Step.Record seat process) }
{
    if seat >= tables.seats() {
        return Some(Reason::NoSeat);
    }
    if process >= tables.processes() {
        return Some(Reason::NoProcess);
    }
    let own = tables.cell(process);
    if !(own.tag.is_out() && own.seat == seat) {
        return Some(Reason::NotHeld);
    }
    None
}

fn why_not_recall(tables: &Tables, seat: u32, process: u32) -> Option<Reason>
    ensures { (g : Setting) → result ≡ reason g tables.now.state (Step.Recall seat process) }
{
    if seat >= tables.seats() {
        return Some(Reason::NoSeat);
    }
    if process >= tables.processes() {
        return Some(Reason::NoProcess);
    }
    if !tables.cell(process).tag.is_ended() {
        return Some(Reason::PredecessorLive);
    }
    None
}

fn why_not_give(
    rules: &Rules,
    tables: &Tables,
    seat: u32,
    process: u32,
    handed: Handover,
) -> Option<Reason>
    requires { Sound rules.now tables.now.state }
    ensures { result ≡ reason rules.now tables.now.state
        (Step.Give seat process handed.taken handed.computed handed.clock handed.ended) }
{
    if seat >= tables.seats() {
        return Some(Reason::NoSeat);
    }
    if process >= tables.processes() {
        return Some(Reason::NoProcess);
    }
    let own = rules.line(process);
    let from = tables.cell(process);
    if !from.is_held_by(seat) {
        return Some(Reason::NotHeld);
    }
    if handed.taken != must_be_taken(rules, tables, seat, process) {
        return Some(Reason::WrongTake);
    }
    why_not_given(rules, tables, seat, own, from, handed)
}

// The same of a give of a held process, of which as much is taken as must be.
fn why_not_given(
    rules: &Rules,
    tables: &Tables,
    seat: u32,
    own: &Line,
    from: Cell,
    handed: Handover,
) -> Option<Reason>
    requires { seat < length tables.now.state.desks }
    ensures { let paced = (desk tables.now.state seat).paced in
        result ≡ first (given_table rules.now own.now from paced handed.taken handed.computed
        handed.clock handed.ended) }
{
    if is_wrong_count(own, from, handed.computed) {
        return Some(Reason::WrongCount);
    }
    let index = from.computed as usize;
    let paced = tables.paced(seat);
    if is_above_lead(own, index, handed.computed as usize, paced, rules.lead()) {
        return Some(Reason::AboveLead);
    }
    if is_over_room(rules.room(), from, handed) {
        return Some(Reason::OverRoom);
    }
    if is_wrong_clock(own, from, handed) {
        return Some(Reason::WrongClock);
    }
    if is_wrong_end(own, from, handed) {
        return Some(Reason::WrongEnd);
    }
    None
}

fn why_not_publish(tables: &Tables) -> Option<Reason>
    requires { 0 < length tables.now.state.desks }
    ensures { (g : Setting) → result ≡ reason g tables.now.state Step.Publish }
{
    if tables.sweep(0).len() != tables.processes() as usize {
        return Some(Reason::NotSwept);
    }
    if tables.due().is_due() {
        return Some(Reason::StillDue);
    }
    None
}

fn why_not_pace(tables: &Tables, seat: u32) -> Option<Reason>
    ensures { (g : Setting) → result ≡ reason g tables.now.state (Step.Pace seat) }
{
    if seat >= tables.seats() {
        return Some(Reason::NoSeat);
    }
    None
}

fn why_not_release(tables: &Tables, count: u32) -> Option<Reason>
    ensures { (g : Setting) → result ≡ reason g tables.now.state (Step.Release count) }
{
    if !tables.due().is_due() {
        return Some(Reason::NotDue);
    }
    if tables.misses_a_visit() {
        return Some(Reason::NotVisited);
    }
    if count as usize != tables.gathered() {
        return Some(Reason::WrongCount);
    }
    None
}

/// The first reason that refuses a step.
pub(crate) fn why_not(rules: &Rules, tables: &Tables, step: Step) -> Option<Reason>
    requires { Sound rules.now tables.now.state }
    ensures { result ≡ reason rules.now tables.now.state step }
{
    match step {
        Step::Look { seat, process } => why_not_look(tables, seat, process),
        Step::Claim { seat, process } => why_not_claim(tables, seat, process),
        Step::Start { seat, process } => why_not_start(rules, tables, seat, process),
        Step::Record { seat, process } => why_not_record(tables, seat, process),
        Step::Recall { seat, process } => why_not_recall(tables, seat, process),
        Step::Give {
            seat,
            process,
            taken,
            computed,
            clock,
            ended,
        } => {
            let handed = Handover {
                taken,
                computed,
                clock,
                ended,
            };
            why_not_give(rules, tables, seat, process, handed)
        }
        Step::Publish => why_not_publish(tables),
        Step::Pace { seat } => why_not_pace(tables, seat),
        Step::Release { count } => why_not_release(tables, count),
    }
}
