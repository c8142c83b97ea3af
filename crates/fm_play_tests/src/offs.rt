//! Worked stacks of note-offs, computed by hand.

ghost use Rattle.std.specs.Prelude.{◌≡◌, ◌<◌, ◌≤◌};
ghost use Rattle.fm_msg.specs.declared.msg.TheConstants.{DATA_VALUES};
ghost use Rattle.fm_offs.specs.Stack.{IsOff};

use crate::same::same;
use fm_offs::{MOST_WAITING, NoteOff, Waiting, let_out};
use std::alloc::{AllocError, Global};
use std::test::Fail;

fn off(tick: u64, key: u8) -> NoteOff
    requires { key < DATA_VALUES }
    ensures is { result ≡ record { tick = tick; channel = 0; key = key } }
    ensures range { IsOff result }
{
    NoteOff {
        tick,
        channel: 0,
        key,
    }
}

#[test]
fn what_is_due_comes_out_by_its_ticks(rt: HostRuntime) -> Result<(), Fail> {
    let mut waiting = Waiting::new();
    waiting.push(off(30, 60));
    waiting.push(off(20, 62));
    waiting.push(off(30, 64));
    same(&rt, &waiting.len(), &3);
    same(&rt, &waiting.clock(40), &20);
    same(&rt, &waiting.clock(10), &10);
    same(&rt, &waiting.is_next(19, 13), &false);
    same(&rt, &waiting.is_next(20, 0), &true);
    same(&rt, &waiting.next(30, 0), &Some(off(20, 62)));
    same(&rt, &waiting.next(30, 0), &Some(off(30, 60)));
    same(&rt, &waiting.next(30, 0), &Some(off(30, 64)));
    same(&rt, &waiting.next(30, 0), &None);
    same(&rt, &waiting.clock(30), &30);
    Ok(())
}

// How many are let out, and the first of them.
fn let_first(
    alloc: Global,
    waiting: &mut Waiting,
    tick: u64,
    pitches: usize,
) -> Result<(usize, Option<NoteOff>), AllocError>
    requires { pitches ≤ 16 }
{
    let offs = let_out(alloc, waiting, tick, pitches)?;
    Ok((offs.len(), offs.as_slice().first().copied()))
}

#[test]
fn those_that_wait_longest_make_room(rt: HostRuntime) -> Result<(), Fail> {
    let mut waiting = Waiting::new();
    for key in 0..16 {
        waiting.push(off(90, key));
    }
    let cut = let_first(rt.alloc(), &mut waiting, 10, 3)?;
    same(&rt, &cut, &(3, Some(off(10, 0))));
    same(&rt, &waiting.len(), &13);
    let last = let_first(rt.alloc(), &mut waiting, 50, MOST_WAITING)?;
    same(&rt, &last, &(13, Some(off(50, 3))));
    same(&rt, &waiting.len(), &0);
    Ok(())
}
