//! Whole pieces on a sink that fails, and one caller.
ghost use Rattle.std.specs.Prelude.{◌++◌, [], ◌∷◌, OnOk, OnErr};
ghost use Rattle.fm_edge.specs.Runs.{Puts, Breaks};

use crate::memory::memory_of;
use crate::same::{same, same_bytes};
use fm_edge::{Append, Failed, Gatherer};
use std::alloc::{AllocError, Global};

// One caller: a title and a text, gathered.
fn put_gathered<K: Append>(title: u8, text: &[u8], sink: &mut K) -> Result<(), Failed>
    ensures ok { OnOk result
        (Puts K.seen sink.old sink.new (title ∷ [] ++ text.now)) }
    ensures err { OnErr result
        (Breaks K.seen sink.old sink.new (title ∷ [] ++ text.now)) }
{
    let mut out = Gatherer::new();
    out.push(title, sink)?;
    out.push_all(text, sink)?;
    out.finish(sink)
}

// Whether a title and this text are put to a sink of this capacity, of which these calls fail, and
// what it then holds.
fn gathered(
    alloc: Global,
    text: &[u8],
    capacity: usize,
    failing: &[(u64, u32)],
) -> Result<(bool, Vec<u8>), AllocError> {
    let mut sink = memory_of(alloc, capacity, failing)?;
    let put = put_gathered(b'#', text, &mut sink).is_ok();
    Ok((put, sink.content().to_vec(alloc)?))
}

// The second put is the one that fails, so the first one had a whole piece.
#[test]
fn bytes_are_put_in_whole_pieces(rt: HostRuntime) -> Result<(), AllocError> {
    let (put, left) = gathered(rt.alloc(), &[7; 5_000], 10_000, &[(2, 10)])?;
    same(&rt, &(put, left.len()), &(false, 4_106));
    same_bytes(&rt, left.get(..3).unwrap_or_default(), b"#\x07\x07");
    Ok(())
}

// Behind a whole piece nothing is left, and nothing is put.
#[test]
fn nothing_is_put_behind_a_whole_piece(rt: HostRuntime) -> Result<(), AllocError> {
    let text = &[7; 4_095];
    let (put, left) = gathered(rt.alloc(), text, 10_000, &[(2, 0)])?;
    same(&rt, &(put, left.len()), &(true, 4_096));
    Ok(())
}

#[test]
fn the_rest_is_put_at_the_end(rt: HostRuntime) -> Result<(), AllocError> {
    let (put, left) = gathered(rt.alloc(), b"text", 10, &[])?;
    same(&rt, &put, &true);
    same_bytes(&rt, &left, b"#text");
    Ok(())
}
