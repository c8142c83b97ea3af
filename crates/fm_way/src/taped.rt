//! A plan that is played on record.
ghost use Rattle.std.specs.Prelude.{◌≡◌, ◌+◌, ◌≤◌, [], false, length, IfOk, IfErr};
ghost use Rattle.fm_board.specs.Seats.{IsBoardOf};
ghost use Rattle.fm_calls.specs.Shared.{of_board};
ghost use Rattle.fm_crew.specs.Conduct.{HasConducted, MayConduct};
ghost use Rattle.fm_crew.specs.Onward.{IsLone};
ghost use Rattle.fm_crew.specs.Workers.{AreWorkers};
ghost use Rattle.fm_lex.specs.declared.lexer.TheConstants.{MAX_TEXT};
ghost use Rattle.fm_play.specs.Performance.{played_of};
ghost use Rattle.fm_record.specs.Head.{head_bytes};
ghost use Rattle.fm_tell.specs.declared.run_fault.RunFault.TheVariants.{Memory};
ghost use Rattle.fm_way.specs.Ways.{CanRecord};

use fm_board::{Board, BoardSeat};
use fm_crew::{Conductor, play_taped};
use fm_edge::{Gate, NullSink};
use fm_play::Played;
use fm_program::Plan;
use fm_record::Tape;
use fm_taping::Recorder;
use fm_tell::RunFault;
use std::alloc::Global;
use std::sync::{Mutex, Wait};
use std::thread::Threads;

/// With what a performance is put on record.
#[derive(Clone, Copy, Debug)]
pub struct Setup {
    /// How many workers play beside the conductor.
    pub workers: u32,
    /// How many events each process may be ahead.
    pub room: u32,
    /// How many ticks each process may be ahead of the slowest one.
    pub lead: u64,
}

/// The tapes of a performance on record.
#[derive(Drop)]
pub struct Tapes {
    /// One with the head of its record, and no steps.
    pub head: Tape,
    /// One with its steps.
    pub steps: Tape,
    /// The size of the file, which is nobody's.
    pub played: Played,
}

/// Plays a plan on record. The head of the record tells the workers, the room, the lead and the
/// text. Where memory was wanting for a step, there is no record.
pub fn play_on_record<R: Threads + Wait + Sync, G: Gate + Sync>(
    rt: &R,
    alloc: Global,
    plan: Plan,
    text: &[u8],
    setup: Setup,
    gate: &G,
) -> Result<Tapes, RunFault>
    requires limits { CanRecord setup.workers setup.room setup.lead }
    requires text { length text.now ≤ MAX_TEXT }
    ensures head { IfOk result (λ r. r.head ≡ record {
      head = head_bytes (setup.workers + 1) setup.room setup.lead text.now;
      steps = [];
      short = false;
    }) }
    ensures whole { IfOk result (λ r. r.steps.short ≡ false) }
    ensures played { IfOk result (λ r. r.played ≡ played_of plan) }
    ensures err { IfErr result (λ fault. fault ≡ Memory) }
{
    let recorded = play_on_tape(rt, alloc, plan, text, setup, gate)?;
    Ok(Tapes {
        head: recorded.head,
        steps: recorded.steps,
        played: recorded.played,
    })
}

// The same, with the board and its conductor.
#[derive(Drop)]
struct Recorded {
    // A tape with the head of its record, and no steps.
    head: Tape,
    // One with its steps.
    steps: Tape,
    // The board on which it was played.
    board: Board,
    // The board's conductor after the last step.
    conductor: Conductor,
    played: Played,
}

// Plays a plan on record, on a board with the seats, the room and the lead that its head tells.
// Where memory was wanting for a step, there is no record.
fn play_on_tape<R: Threads + Wait + Sync, G: Gate + Sync>(
    rt: &R,
    alloc: Global,
    plan: Plan,
    text: &[u8],
    setup: Setup,
    gate: &G,
) -> Result<Recorded, RunFault>
    requires limits { CanRecord setup.workers setup.room setup.lead }
    requires text { length text.now ≤ MAX_TEXT }
    ensures head { IfOk result (λ r. r.head ≡ record {
      head = head_bytes (setup.workers + 1) setup.room setup.lead text.now;
      steps = [];
      short = false;
    }) }
    ensures whole { IfOk result (λ r. r.steps.short ≡ false) }
    ensures board { IfOk result (λ r. IsBoardOf r.board.about plan
        setup.room setup.lead (setup.workers + 1)) }
    ensures conducted { IfOk result (λ r. HasConducted (of_board r.board) r.conductor.seat) }
    ensures played { IfOk result (λ r. r.played ≡ played_of plan) }
    ensures err { IfErr result (λ fault. fault ≡ Memory) }
{
    let Setup {
        workers,
        room,
        lead,
    } = setup;
    let head = Tape::new(alloc, workers + 1, room, lead, text)?;
    let tape = Tape::new(alloc, workers + 1, room, lead, text)?;
    let recorder = Mutex::new(Recorder::new(tape));
    let (board, mut conductor, others) = fm_crew::open(alloc, plan, room, lead, workers)?;
    let played = play_unheard(rt, &board, &mut conductor, others, gate, &recorder);
    let steps = recorder.into_inner().tape;
    if steps.is_short() {
        return Err(RunFault::Memory);
    }
    Ok(Recorded {
        head,
        steps,
        board,
        conductor,
        played,
    })
}

// Plays a board's plan with its steps on a tape. The file is nobody's: its length is counted.
fn play_unheard<R: Threads + Wait + Sync, G: Gate + Sync>(
    rt: &R,
    board: &Board,
    conductor: &mut Conductor,
    others: Vec<BoardSeat>,
    gate: &G,
    recorder: &Mutex<Recorder>,
) -> Played
    requires opened { MayConduct (of_board board.now) conductor.old }
    requires workers { AreWorkers (of_board board.now) others.items }
    requires lone { length others.items ≡ 0 → IsLone conductor.old.seat.mind }
    ensures conducted { HasConducted (of_board board.now) conductor.new.seat }
    ensures played { result ≡ played_of board.now.about.plan }
{
    let mut nowhere = NullSink::new();
    match play_taped(rt, board, conductor, others, gate, recorder, &mut nowhere) {
        Ok(played) => played,
        Err(_) => unreachable!(),
    }
}
