//! Worked runs of a board of two seats, call by call.
ghost use Rattle.std.specs.Prelude.{◌≡◌, ◌<◌, [], ◌∷◌, IfOk, length};
ghost use Rattle.fm_core.specs.declared.due.Due.TheVariants.{Nothing};
ghost use Rattle.fm_core.specs.declared.floor.Floor.TheVariants.{At};
ghost use Rattle.fm_core.specs.declared.tag.Tag.TheVariants.{Home};
ghost use Rattle.fm_program.proofs.Rows.{first_program, one_key, quarter_note};
ghost use Rattle.fm_program.specs.Parts.{program_parts, stock_parts};
ghost use Rattle.fm_board.specs.Answers.{Claims};
ghost use Rattle.fm_board.specs.Quantum.{HasMade, MayAdvance};
ghost use Rattle.fm_board.specs.Seats.{IsIdle, IsOurs};

mod births;
mod floors;

use crate::same::same;
use fm_board::{Berth, Board, BoardSeat, Claim, Seen};
use fm_core::Tag;
use fm_msg::Profile;
use fm_program::{Draw, Op, Plan, Program, Scopes, Span, Stock, Turn};
use fm_strand::Quantum;
use std::alloc::{AllocError, Global};
use std::process::Abort;
use std::test::*;
use std::thread::{Threads, join_mut};

/// A quarter note: an on at 0, an off at 432.
const NOTE: Op = Op::Note {
    chord: 0,
    span: Span::Ticks { ticks: 480 },
    channel: 0,
    gate: Turn::Steady { value: 90 },
    loud: Turn::Steady { value: 64 },
    scope: 0,
};

// Tables with a chord of one key.
fn one_chord(alloc: Global) -> Result<Stock, AllocError>
    ensures { IfOk result (λ s. stock_parts s ≡ one_key) }
{
    let chord = vec![in alloc; Draw::Fixed { value: 60 }]?;
    Ok(Stock {
        exprs: Vec::new(alloc),
        lists: Vec::new(alloc),
        chords: vec![in alloc; chord]?,
        scopes: Scopes::new(alloc),
        warps: Vec::new(alloc),
    })
}

// A program of one note.
fn one_note(alloc: Global) -> Result<Program, AllocError>
    ensures { IfOk result (λ p. program_parts p ≡ first_program (quarter_note ∷ [])) }
{
    Ok(Program {
        ops: vec![in alloc; NOTE]?,
        cycles: Vec::new(alloc),
        levels: Vec::new(alloc),
        predecessors: Vec::new(alloc),
    })
}

// A plan of one note.
fn plan_of_a_note(alloc: Global) -> Result<Plan, AllocError> {
    let stock = one_chord(alloc)?;
    let programs = vec![in alloc; one_note(alloc)?]?;
    Ok(Plan::of(stock, programs, 0, Profile::first()))
}

// A board of this plan with one worker, room 8 and lead 0, and its two seats.
fn opened(alloc: Global, plan: Plan) -> Result<(Board, BoardSeat, BoardSeat), AllocError>
    ensures zero { IfOk result (λ r. IsIdle r.0.table.shared.table_id r.0.about r.1) }
    ensures conductor { IfOk result (λ r. r.1.mind.view.number ≡ 0) }
    ensures settled { IfOk result (λ r. r.1.mind.view.due ≡ Nothing) }
    ensures one { IfOk result (λ r. IsIdle r.0.table.shared.table_id r.0.about r.2) }
    ensures number { IfOk result (λ r. r.2.mind.view.number ≡ 1) }
    ensures paced { IfOk result (λ r. r.2.mind.view.paced ≡ At 0) }
{
    let (board, zero, others) = Board::open(alloc, plan, 8, 0, 1)?;
    Ok((board, zero, only_seat(others)))
}

// The one seat of this list.
fn only_seat(mut seats: Vec<BoardSeat>) -> BoardSeat
    requires { length seats.items ≡ 1 }
    ensures { seats.items ≡ result ∷ [] }
{
    match seats.pop() {
        Some(seat) => seat,
        None => unreachable!(),
    }
}

// A look at process 0, which has to find this.
fn sees<R: Abort>(rt: &R, board: &Board, seat: &mut BoardSeat, wanted: (Tag, u64, u32)) -> Seen
    requires idle { IsIdle board.now.table.shared.table_id board.now.about seat.old }
    ensures idle { IsIdle board.now.table.shared.table_id board.now.about seat.new }
    ensures number { seat.new.mind.view.number ≡ seat.old.mind.view.number }
    ensures paced { seat.new.mind.view.paced ≡ seat.old.mind.view.paced }
    ensures due { seat.new.mind.view.due ≡ seat.old.mind.view.due }
{
    assert!(rt; 0 < board.plan().processes());
    let seen = board.look(seat, 0);
    same(rt, &(seen.tag, seen.clock, seen.seat), &wanted);
    seen
}

// A claim of process 0, which was seen at home.
fn claim_first(board: &Board, seat: &mut BoardSeat, seen: &Seen) -> Claim
    requires idle { IsIdle board.now.table.shared.table_id board.now.about seat.old }
    requires there { 0 < length board.now.about.plan.programs }
    requires home { seen.now.tag ≡ Home }
    ensures { Claims board.now.about seat.old 0 seen.now result seat.new }
{
    board.claim(seat, 0, seen)
}

// A claim of process 0 where it was seen at home.
fn claims<R: Abort>(rt: &R, board: &Board, seat: &mut BoardSeat, seen: &Seen) -> Claim
    requires { IsIdle board.now.table.shared.table_id board.now.about seat.old }
    ensures answer { Claims board.now.about seat.old 0 seen.now result seat.new }
    ensures seen { seen.now.tag ≡ Home }
{
    assert!(rt; 0 < board.plan().processes());
    match seen.tag {
        Tag::Home => claim_first(board, seat, seen),
        _ => panic!(rt; "process 0 is not at home"),
    }
}

// A claim of process 0 that has to find another word.
fn is_busy<R: Abort>(
    rt: &R,
    board: &Board,
    seat: &mut BoardSeat,
    seen: &Seen,
    wanted: (Tag, u64, u32),
)
    requires idle { IsIdle board.now.table.shared.table_id board.now.about seat.old }
    ensures idle { IsIdle board.now.table.shared.table_id board.now.about seat.new }
{
    match claims(rt, board, seat, seen) {
        Claim::Held(_) => panic!(rt; "the process is in other hands"),
        Claim::Busy { found } => same(rt, &(found.tag, found.clock, found.seat), &wanted),
    }
}

// A quantum of the process that the seat holds, which has to answer this, and the give.
fn plays<R: Abort>(
    rt: &R,
    board: &Board,
    seat: &mut BoardSeat,
    berth: Berth,
    limit: u64,
    wanted: Quantum,
)
    requires ours { IsOurs board.now.table.shared.table_id board.now.about seat.old }
    requires may { MayAdvance board.now.about seat.old.mind.view limit berth }
    ensures { IsIdle board.now.table.shared.table_id board.now.about seat.new }
{
    let mut berth = berth;
    let answer = berth.strand.quantum(board.plan(), limit, &mut berth.outbox);
    assert!(rt; answer == wanted);
    give_back(board, seat, berth, answer);
}

// Gives a process back after a quantum that answered so.
fn give_back(board: &Board, seat: &mut BoardSeat, berth: Berth, answer: Quantum)
    requires ours { IsOurs board.now.table.shared.table_id board.now.about seat.old }
    requires made { HasMade board.now.about seat.old.mind.view berth answer }
    ensures { IsIdle board.now.table.shared.table_id board.now.about seat.new }
{
    match answer {
        Quantum::Ended => {
            board.record(seat, &berth);
            board.give(seat, berth);
        }
        Quantum::Spent | Quantum::Full | Quantum::Limit => board.give(seat, berth),
    }
}

// Both seats claim process 0 at once: one has it, and the other finds out who.
fn both_claim<R: Abort + Threads + Sync>(
    rt: &R,
    board: &Board,
    zero: &mut BoardSeat,
    one: &mut BoardSeat,
    seen: &Seen,
)
    requires zero { IsIdle board.now.table.shared.table_id board.now.about zero.old }
    requires one { IsIdle board.now.table.shared.table_id board.now.about one.old }
    requires there { 0 < length board.now.about.plan.programs }
    requires home { seen.now.tag ≡ Home }
{
    let mut by_zero = || -> Claim
        requires { IsIdle board.now.table.shared.table_id board.now.about zero.now
            × (0 < length board.now.about.plan.programs) × (seen.now.tag ≡ Home) }
    { claim_first(board, zero, seen) };
    let mut by_one = || -> Claim
        requires { IsIdle board.now.table.shared.table_id board.now.about one.now
            × (0 < length board.now.about.plan.programs) × (seen.now.tag ≡ Home) }
    { claim_first(board, one, seen) };
    let seat = match join_mut(rt, &mut by_zero, &mut by_one) {
        (Claim::Held(_), Claim::Busy { found }) => (found.tag, found.clock, found.seat, 0),
        (Claim::Busy { found }, Claim::Held(_)) => (found.tag, found.clock, found.seat, 1),
        _ => panic!(rt; "exactly one seat holds the process"),
    };
    same(rt, &(seat.0, seat.1, seat.2), &(Tag::Out, 0, seat.3));
}

#[test]
fn one_of_two_threads_holds_a_process(rt: HostRuntime) -> Result<(), Fail> {
    let (board, mut zero, mut one) = opened(rt.alloc(), plan_of_a_note(rt.alloc())?)?;
    let seen = sees(&rt, &board, &mut zero, (Tag::Home, 0, 0));
    assert!(&rt; 0 < board.plan().processes());
    match seen.tag {
        Tag::Home => both_claim(&rt, &board, &mut zero, &mut one, &seen),
        _ => panic!(&rt; "process 0 is not at home"),
    }
    Ok(())
}
