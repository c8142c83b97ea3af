//! The entries of a track's body.
ghost use Rattle.std.specs.Prelude.{◌≡◌, None, ◌≤◌, length, IfErr};
ghost use Rattle.fm_read.specs.Reading.{Gives, in_force};
ghost use Rattle.fm_read.specs.Tracks.{as_pair, ends_track, entries, judged, IsRead, pairs_read};

use crate::entry::{Entry, entry_of};
use crate::fault::{ReadKind, Stop};
use std::marker::Model;

// The status in force behind an event: sysex and meta events leave none.
fn in_force(status: u8) -> Option<u8>
    ensures { result ≡ in_force status }
{
    if status < 240 { Some(status) } else { None }
}

// Whether an event is End of Track.
fn ends_track(bytes: &[u8]) -> bool
    ensures { result ≡ ends_track bytes.now }
{
    match bytes {
        [status, kind, ..] => *status == 255 && *kind == 47,
        _ => false,
    }
}

/// Whether the bytes are a track's body, or their first fault.
pub fn judge_track(body: &[u8]) -> Result<(), Stop>
    ensures read { Gives (λ x. x) result (judged (entries None body.now)) }
    ensures within { IfErr result (λ s. s.left ≤ length body.now) }
{
    let mut rest = body;
    let mut running = None;
    while !rest.is_empty() {
        let (entry, after) = entry_of(running, rest)?;
        if ends_track(entry.bytes) {
            if after.is_empty() {
                return Ok(());
            }
            return Err(Stop {
                kind: ReadKind::AfterEnd,
                left: after.len(),
            });
        }
        running = in_force(entry.status);
        rest = after;
    }
    Err(Stop {
        kind: ReadKind::NoEnd,
        left: 0,
    })
}

/// The entries of a track that are still to come, in order. End of Track is the last of them.
#[derive(Drop)]
pub struct Track<'a> {
    rest: &'a [u8],
    running: Option<u8>,
}

impl<'a> Model for Track<'a> {
    ghost use Rattle.std.specs.Prelude.{List};
    ghost use Rattle.fm_read.specs.Reading.{Pair};
    ghost use Rattle.fm_read.specs.Tracks.{IsRead, pairs_read, entries_left};

    ghost Value = { List Pair };

    ghost view = { λ t. pairs_read (entries_left t.running t.rest.now) };

    ghost invariant = { λ t. IsRead (entries_left t.running t.rest.now) };
}

impl<'a> Track<'a> {
    // The entries of a track's body that has no fault.
    pub(crate) fn of_body(body: &'a [u8]) -> Track<'a>
        requires { IsRead (entries None body.now) }
        ensures { result ≡ pairs_read (entries None body.now) }
    {
        Track {
            rest: body,
            running: None,
        }
    }
}

impl<'a> Iterator for Track<'a> {
    ghost use Rattle.std.specs.Iterator.{YieldsFirstBy, item_count};
    ghost use Rattle.fm_read.specs.Tracks.{as_pair};

    type Item = Entry<'a>;

    ghost next_gives = { YieldsFirstBy as_pair (λ es. es) };

    ghost remaining = { item_count (λ es. es) };

    fn next(&mut self) -> Option<Entry<'a>> {
        match entry_of(self.running, self.rest) {
            Ok((entry, rest)) => {
                self.running = in_force(entry.status);
                self.rest = rest;
                Some(entry)
            }
            Err(_) => None,
        }
    }
}
