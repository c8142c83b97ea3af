//! The programs of an outline.
ghost use Rattle.std.specs.Prelude.{◌≡◌, ◌+◌, ◌&&◌, ◌∷◌, [], length, map, flat_map, vec_items, IfOk};
ghost use Rattle.fm_expansion.specs.Outline as plain;
ghost use Rattle.fm_expansion.specs.Homes.{Inside as Open, loop_round, slots_of, in_scope};
ghost use Rattle.fm_expansion.specs.Emission as emission;
ghost use Rattle.fm_expansion.specs.Expansion as expansion;
ghost use Rattle.fm_expansion.specs.Expansion.{straight, unrolled, with_scopes};
ghost use Rattle.fm_program.specs.Parts.{program_parts};
ghost use Rattle.fm_outline.specs.Forking.{AreMarked, IsMarked};
ghost use Rattle.fm_outline.specs.Phrases.{ForksMarked};
ghost use Rattle.fm_outline.specs.View.{arms_of_blocks, block_view, outline_view};
ghost use Rattle.fm_outline.specs.View.{quality_view, step_view};
ghost use Rattle.fm_plan.specs.Made.{made, made_in};
ghost use Rattle.fm_plan.specs.Seen.{emitting_of, look_of, Agrees, IsKnown, Makes};

use crate::emitter::Emitter;
use crate::inside::{Inside, as_index};
use fm_outline::{Instruction, Outline, Quality, Step};
use fm_program::{Count, Op, Program, Scopes, Slot};
use std::alloc::{AllocError, Global};

/// The programs of all processes, and the scopes of their operations.
#[derive(Drop)]
pub struct Expanded {
    pub programs: Vec<Program>,
    pub scopes: Scopes,
}

/// The phrases before a statement, by their numbers.
#[derive(Clone, Copy)]
pub(crate) struct Earlier<'a> {
    pub(crate) bodies: &'a [Vec<Step>],
}

// How often a loop goes round that is written out.
fn written_rounds(count: Count) -> u32
    ensures { result ≡ expansion.written_rounds count }
{
    match count {
        Count::Fixed { count } => count,
        Count::Drawn { most, .. } => most,
    }
}

// Whether a loop is written out: it forks, and stands where statements may.
fn is_written_out(step: &Step, forking: bool) -> bool
    ensures { result ≡ (forking && step.now.needs.forks) }
{
    forking && step.forks()
}

// A statement, which may name the phrases before it. It is written out where `forking` says that it
// may fork.
#[cycle(expand)]
#[inline(never)]
fn expand_step(
    m: &mut Emitter,
    earlier: Earlier<'_>,
    step: &Step,
    inside: Inside,
    forking: bool,
) -> Result<(), AllocError>
    requires known { IsKnown earlier }
    requires marked { IsMarked (look_of earlier) step.now }
    ensures { (i : Open) → Agrees m.old inside i → IfOk result (λ _. Makes m.old m.new
        (made forking (step_view (look_of earlier.entry) step.now).what i
        (emitting_of m.old))) }
{
    match &step.what {
        Instruction::Note { chord, lasting } => m.push(Op::Note {
            chord: *chord,
            span: inside.span(*lasting),
            channel: inside.channel,
            gate: inside.gate,
            loud: inside.loud,
            scope: inside.scope,
        }),
        Instruction::Rest { lasting } => m.push(Op::Rest {
            span: inside.span(*lasting),
            scope: inside.scope,
        }),
        Instruction::Send { point, draw } => m.push(Op::Send {
            point: *point,
            channel: inside.channel,
            draw: *draw,
            scope: inside.scope,
        }),
        Instruction::Set { register, expr } => m.push(Op::Set {
            register: *register,
            expr: *expr,
            scope: inside.scope,
        }),
        Instruction::Choice { expr, yes, no } => {
            expand_choice(m, earlier, *expr, yes, no, inside)
        }
        Instruction::Loop { count, body } => {
            if is_written_out(step, forking) {
                expand_rounds(m, earlier, *count, body, inside)
            } else {
                expand_loop(m, earlier, *count, body, inside)
            }
        }
        Instruction::Phrase { number } => match *number {
            Some(n) => expand_phrase(m, earlier, n as usize, inside, forking),
            None => Ok(()),
        },
        Instruction::Par { branches } => {
            if forking {
                expand_fork(m, earlier, branches, inside)
            } else {
                Ok(())
            }
        }
        Instruction::Warp { number, body } => {
            expand_warp(m, earlier, *number, body, inside, forking)
        }
        Instruction::Channel { number, body } => {
            expand_steps(m, earlier, body, inside.on_channel(*number), forking)
        }
        Instruction::Steady {
            quality,
            entry,
            body,
        } => expand_steps(m, earlier, body, inside.steady(*quality, *entry), forking),
        Instruction::Under {
            quality,
            list,
            body,
        } => expand_list(m, earlier, *quality, *list, body, inside, forking),
    }
}

// Statements in turn.
#[cycle(expand)]
fn expand_steps(
    m: &mut Emitter,
    earlier: Earlier<'_>,
    steps: &[Step],
    inside: Inside,
    forking: bool,
) -> Result<(), AllocError>
    requires known { IsKnown earlier }
    requires marked { AreMarked (look_of earlier) steps.now }
    ensures { (i : Open) → Agrees m.old inside i → IfOk result (λ _. Makes m.old m.new
        (made_in forking (block_view (look_of earlier.entry) steps.now) i
        (emitting_of m.old))) }
{
    for step in steps {
        expand_step(m, earlier, step, inside, forking)?;
    }
    Ok(())
}

// A phrase: of the phrases before it, it may name each.
#[cycle(expand)]
fn expand_phrase(
    m: &mut Emitter,
    earlier: Earlier<'_>,
    number: usize,
    inside: Inside,
    forking: bool,
) -> Result<(), AllocError>
    requires known { IsKnown earlier }
    ensures { (i : Open) → Agrees m.old inside i → IfOk result (λ _. Makes m.old m.new
        (made_in forking (look_of earlier.entry number) i (emitting_of m.old))) }
{
    let bodies = earlier.bodies;
    if number < bodies.len() {
        let before = Earlier {
            bodies: &bodies[..number],
        };
        let body = bodies[number].as_slice();
        expand_steps(m, before, body, inside, forking)
    } else {
        Ok(())
    }
}

// A choice: where the value is not above 0, its first block is passed over, else its second.
#[cycle(expand)]
fn expand_choice(
    m: &mut Emitter,
    earlier: Earlier<'_>,
    expr: u32,
    yes: &[Step],
    no: &[Step],
    inside: Inside,
) -> Result<(), AllocError>
    requires known { IsKnown earlier }
    requires yes { AreMarked (look_of earlier) yes.now }
    requires no { AreMarked (look_of earlier) no.now }
    ensures { (i : Open) → Agrees m.old inside i → IfOk result (λ _. Makes m.old m.new
        (straight (plain.choice expr (block_view (look_of earlier.entry) yes.now)
        (block_view (look_of earlier.entry) no.now)) i (emitting_of m.old))) }
{
    let test = m.size();
    let scope = inside.scope;
    m.push(Op::Test {
        expr,
        scope,
        past: 0,
    })?;
    expand_steps(m, earlier, yes, inside, false)?;
    let jump = m.size();
    m.push(Op::Jump { target: 0 })?;
    let middle = m.next()?;
    expand_steps(m, earlier, no, inside, false)?;
    let target = m.next()?;
    m.set(jump, Op::Jump { target });
    m.set(
        test,
        Op::Test {
            expr,
            scope,
            past: middle,
        },
    );
    Ok(())
}

// A loop in a frame.
#[cycle(expand)]
fn expand_loop(
    m: &mut Emitter,
    earlier: Earlier<'_>,
    count: Count,
    body: &[Step],
    inside: Inside,
) -> Result<(), AllocError>
    requires known { IsKnown earlier }
    requires marked { AreMarked (look_of earlier) body.now }
    ensures { (i : Open) → Agrees m.old inside i → IfOk result (λ _. Makes m.old m.new
        (straight (plain.loop count (block_view (look_of earlier.entry) body.now)) i
        (emitting_of m.old))) }
{
    let start = m.size();
    let outer = inside.scope;
    m.push(Op::Loop {
        count,
        scope: outer,
        past: 0,
    })?;
    let back = m.next()?;
    let scope = m.add_scope(
        outer,
        Slot::Frame {
            frame: inside.frames,
        },
    )?;
    let deeper = inside.in_loop(scope)?;
    expand_steps(m, earlier, body, deeper, false)?;
    m.push(Op::Again { back })?;
    let past = m.next()?;
    m.set(
        start,
        Op::Loop {
            count,
            scope: outer,
            past,
        },
    );
    Ok(())
}

// A loop that is written out round by round.
#[cycle(expand)]
fn expand_rounds(
    m: &mut Emitter,
    earlier: Earlier<'_>,
    count: Count,
    body: &[Step],
    inside: Inside,
) -> Result<(), AllocError>
    requires known { IsKnown earlier }
    requires marked { AreMarked (look_of earlier) body.now }
    ensures { (i : Open) → Agrees m.old inside i → IfOk result (λ _. Makes m.old m.new
        (unrolled (λ j f. expansion.expand_in
        (block_view (look_of earlier.entry) body.now)
        (in_scope (loop_round j) (length f.scopes) i)
        (with_scopes (slots_of (loop_round j ∷ i.homes) ∷ []) f))
        (expansion.written_rounds count) 0 (emitting_of m.old))) }
{
    for round in 0..written_rounds(count) {
        let scope = m.add_scope(inside.scope, Slot::Fixed { value: round })?;
        expand_steps(m, earlier, body, inside.in_round(scope), true)?;
    }
    Ok(())
}

// A fork: a program for each branch, and one for what follows.
#[cycle(expand)]
fn expand_fork(
    m: &mut Emitter,
    earlier: Earlier<'_>,
    branches: &[Vec<Step>],
    inside: Inside,
) -> Result<(), AllocError>
    requires known { IsKnown earlier }
    requires marked { AreMarked (look_of earlier) (flat_map vec_items branches.now) }
    ensures { (i : Open) → Agrees m.old inside i → IfOk result (λ _. Makes m.old m.new
        (expansion.expand (plain.par (arms_of_blocks
        (map (λ b. block_view (look_of earlier.entry) b.items) branches.now))) i
        (emitting_of m.old))) }
{
    let forked = as_index(m.finished.len())?;
    let mut lasts = Vec::new(m.alloc);
    for branch in branches {
        let mut parent = Vec::new(m.alloc);
        parent.push(forked)?;
        m.next_program(parent)?;
        expand_steps(m, earlier, branch, inside, true)?;
        lasts.push(as_index(m.finished.len())?)?;
    }
    m.next_program(lasts)?;
    Ok(())
}

// A deformation.
#[cycle(expand)]
fn expand_warp(
    m: &mut Emitter,
    earlier: Earlier<'_>,
    number: u32,
    body: &[Step],
    inside: Inside,
    forking: bool,
) -> Result<(), AllocError>
    requires known { IsKnown earlier }
    requires marked { AreMarked (look_of earlier) body.now }
    ensures { (i : Open) → Agrees m.old inside i → IfOk result (λ _. Makes m.old m.new
        (made forking (plain.warp number
        (block_view (look_of earlier.entry) body.now)) i (emitting_of m.old))) }
{
    m.push(Op::Enter { warp: number })?;
    m.levels.push(number)?;
    expand_steps(m, earlier, body, inside, forking)?;
    m.levels.pop();
    m.push(Op::Leave)?;
    Ok(())
}

// A list in a frame.
#[cycle(expand)]
fn expand_list(
    m: &mut Emitter,
    earlier: Earlier<'_>,
    quality: Quality,
    list: u32,
    body: &[Step],
    inside: Inside,
    forking: bool,
) -> Result<(), AllocError>
    requires known { IsKnown earlier }
    requires marked { AreMarked (look_of earlier) body.now }
    ensures { (i : Open) → Agrees m.old inside i → IfOk result (λ _. Makes m.old m.new
        (made forking (plain.under (quality_view quality) list
        (block_view (look_of earlier.entry) body.now)) i (emitting_of m.old))) }
{
    let deeper = inside.in_list(quality)?;
    m.push(Op::Begin { list })?;
    m.cycles.push(list)?;
    expand_steps(m, earlier, body, deeper, forking)?;
    m.cycles.pop();
    m.push(Op::Close)?;
    Ok(())
}

/// The programs of an outline whose statements say rightly whether they fork. There is room for so
/// many processes from the start, and more are made room for.
pub fn expand(alloc: Global, outline: &Outline, processes: u32) -> Result<Expanded, AllocError>
    requires { ForksMarked outline.now }
    ensures programs { IfOk result (λ x.
        map program_parts x.programs.items
        ≡ expansion.whole (expansion.expanded (outline_view outline.now).value)) }
    ensures scopes { IfOk result (λ x.
        x.scopes ≡ (expansion.expanded (outline_view outline.now).value).scopes) }
{
    let mut m = Emitter::new(alloc, processes)?;
    let all = Earlier {
        bodies: &outline.phrases,
    };
    expand_steps(&mut m, all, &outline.block, Inside::outermost(), true)?;
    let Emitter {
        mut finished,
        current,
        scopes,
        ..
    } = m;
    finished.push(current)?;
    Ok(Expanded {
        programs: finished,
        scopes,
    })
}
