//! The chunks of a file.
ghost use Rattle.std.specs.Prelude.{◌≡◌, ◌+◌, ◌≤◌, ◌<◌, ◌^◌, true, [], ◌∷◌, codes, length, take};
ghost use Rattle.std.specs.Prelude.{None, IfOk, IfErr, IfSome, IfNone, MatchOption};
ghost use Rattle.fm_read.specs.Reading.{Gives};
ghost use Rattle.fm_read.specs.Files.{wide_at, short_at, has_kind, chunk_fault, held, past_chunk};
ghost use Rattle.fm_read.specs.Files.{read_chunk, chunks, tracks, tracked, body_chunks};
ghost use Rattle.fm_read.specs.Tracks.{IsRead, entries};
ghost use Rattle.fm_read.specs.Kept.{chunks_of, joined_parts, behind_track};
ghost use Rattle.fm_read.specs.FileForm.{IsChunk};
ghost use Rattle.fm_read.specs.Views.{as_part};
ghost use Rattle.fm_read.specs.Seen.{track_found, present};

use crate::fault::{CUT, ReadKind, Stop};
use crate::track::{Track, judge_track};
use std::marker::Model;

/// A chunk of a file.
#[derive(Clone, Copy)]
pub struct Chunk<'a> {
    /// Its kind in four bytes, and its length in four.
    pub head: &'a [u8],
    /// As many bytes as its length says.
    pub body: &'a [u8],
}

/// The number that four bytes spell, the most significant first.
pub fn wide_at(bytes: &[u8], at: usize) -> u32
    requires { at + 4 ≤ length bytes.now }
    ensures { result ≡ wide_at at bytes.now }
{
    let four = &bytes[at..at + 4];
    u32::from_be_bytes([four[0], four[1], four[2], four[3]])
}

/// The number that two bytes spell.
pub fn short_at(bytes: &[u8], at: usize) -> u16
    requires { at + 2 ≤ length bytes.now }
    ensures { result ≡ short_at at bytes.now }
{
    let two = &bytes[at..at + 2];
    u16::from_be_bytes([two[0], two[1]])
}

/// Whether the bytes begin with these four.
pub fn has_kind(kind: &[u8; 4], bytes: &[u8]) -> bool
    ensures { result ≡ has_kind kind.now bytes.now }
{
    bytes.len() >= 4 && &bytes[..4] == kind.as_slice()
}

// Whether a track's body, which is cut or whole, has no fault. So many bytes follow it.
#[tactic(auto, unfolding(crate::specs::Files::chunk_fault))]
fn judge_body(cut: bool, body: &[u8], behind: usize) -> Result<(), Stop>
    requires { length body.now + behind < 2 ^ 64 }
    ensures read { Gives (λ x. x) result (chunk_fault true cut body.now behind) }
    ensures within { IfErr result (λ s. s.left ≤ length body.now + behind) }
{
    match judge_track(body) {
        Ok(()) if cut => Err(CUT),
        Ok(()) => Ok(()),
        Err(stop) if !cut => Err(Stop {
            kind: stop.kind,
            left: stop.left + behind,
        }),
        Err(stop) if stop.left == 0 => Err(CUT),
        Err(stop) => Err(stop),
    }
}

// A chunk as far as it is there, and what follows it.
fn split_chunk(bytes: &[u8]) -> (Chunk<'_>, &[u8])
    requires { 8 ≤ length bytes.now }
    ensures head { result.0.head.now ≡ take 8 bytes.now }
    ensures body { result.0.body.now ≡ held bytes.now }
    ensures rest { result.1.now ≡ past_chunk bytes.now }
{
    let (head, rest) = bytes.split_at(8);
    let count = wide_at(head, 4) as usize;
    let (body, after) = rest.split_at(count.min(rest.len()));
    (Chunk { head, body }, after)
}

// Whether a chunk's body, which is cut or whole, has no fault.
#[tactic(auto, unfolding(crate::specs::Files::chunk_fault))]
fn judge_part(track: bool, cut: bool, body: &[u8], behind: usize) -> Result<(), Stop>
    requires { length body.now + behind < 2 ^ 64 }
    ensures read { Gives (λ x. x) result (chunk_fault track cut body.now behind) }
    ensures within { IfErr result (λ s. s.left ≤ length body.now + behind) }
{
    if track {
        judge_body(cut, body, behind)
    } else if cut {
        Err(CUT)
    } else {
        Ok(())
    }
}

// Whether the chunk at the front is a track, and what follows it.
#[tactic(auto, unfolding(crate::specs::Files::read_chunk), using(crate::proofs::ChunkLemmas::found_chunk))]
fn judge_chunk(bytes: &[u8]) -> Result<(bool, &[u8]), Stop>
    ensures read { Gives (λ x. (x.0, x.1.now)) result (track_found (read_chunk bytes.now)) }
    ensures within { IfErr result (λ s. s.left ≤ length bytes.now) }
    ensures shorter { IfOk result (λ x. length x.1.now < length bytes.now) }
{
    if bytes.len() < 8 {
        return Err(CUT);
    }
    let (chunk, after) = split_chunk(bytes);
    let track = has_kind(b"MTrk", bytes);
    let cut = bytes.len() - 8 < wide_at(bytes, 4) as usize;
    judge_part(track, cut, chunk.body, after.len())?;
    Ok((track, after))
}

// Whether one of the chunks is a track, or their first fault.
fn judge_chunks(bytes: &[u8]) -> Result<bool, Stop>
    ensures read { Gives (λ x. x) result (tracked (chunks bytes.now)) }
    ensures within { IfErr result (λ s. s.left ≤ length bytes.now) }
{
    let mut rest = bytes;
    let mut any = false;
    while !rest.is_empty() {
        let (track, after) = judge_chunk(rest)?;
        any |= track;
        rest = after;
    }
    Ok(any)
}

/// Whether the bytes are chunks of which one is a track, or their first fault.
pub fn judge_rest(bytes: &[u8]) -> Result<(), Stop>
    ensures read { Gives (λ x. x) result (present (body_chunks bytes.now)) }
    ensures within { IfErr result (λ s. s.left ≤ length bytes.now) }
{
    if judge_chunks(bytes)? {
        Ok(())
    } else {
        Err(Stop {
            kind: ReadKind::NoTrack,
            left: 0,
        })
    }
}

/// The chunks behind a file's header that are still to come, in order.
#[derive(Drop)]
pub struct Chunks<'a> {
    rest: &'a [u8],
}

impl<'a> Model for Chunks<'a> {
    ghost use Rattle.std.specs.Prelude.{List};
    ghost use Rattle.fm_read.specs.Tracks.{IsRead};
    ghost use Rattle.fm_read.specs.Files.{Part, chunks};
    ghost use Rattle.fm_read.specs.Kept.{chunks_of};

    ghost Value = { List Part };

    ghost view = { λ c. chunks_of c.rest.now };

    ghost invariant = { λ c. IsRead (chunks c.rest.now) };
}

impl<'a> Chunks<'a> {
    // The chunks of these bytes, which have no fault.
    pub(crate) fn new(bytes: &'a [u8]) -> Chunks<'a>
        requires { IsRead (chunks bytes.now) }
        ensures { result ≡ chunks_of bytes.now }
    {
        Chunks { rest: bytes }
    }

    /// The next chunk, where there is one. The body of a track has no fault.
    pub fn next(&mut self) -> Option<Chunk<'a>>
        ensures given { MatchOption result (self.old ≡ []) (λ c. self.old ≡ as_part c ∷ self.new) }
        ensures head { IfSome result (λ c. length c.head.now ≡ 8) }
        ensures form { IfSome result (λ c. IsChunk (as_part c)) }
        ensures track { IfSome result (λ c. has_kind (codes "MTrk") c.head.now ≡ true
            → IsRead (entries None c.body.now)) }
        ensures none { IfNone result (self.new ≡ self.old) }
    {
        if self.rest.len() < 8 {
            return None;
        }
        let (chunk, rest) = split_chunk(self.rest);
        self.rest = rest;
        Some(chunk)
    }

    /// The next chunk that is a track, as its entries. Chunks of other kinds are passed over.
    pub fn next_track(&mut self) -> Option<Track<'a>>
        ensures given { MatchOption result (tracks self.old ≡ [])
            (λ t. tracks self.old ≡ t ∷ tracks self.new) }
        // What was passed over has no track.
        ensures passed { self.new ≡ behind_track self.old }
        // A track has no more entries than bytes.
        ensures few { IfSome result (λ t. length t + length (joined_parts self.new)
            ≤ length (joined_parts self.old)) }
        ensures shorter { IfSome result (λ t. length self.new < length self.old) }
    {
        while let Some(chunk) = self.next() {
            if has_kind(b"MTrk", chunk.head) {
                return Some(Track::of_body(chunk.body));
            }
        }
        None
    }
}
