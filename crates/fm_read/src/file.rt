//! A whole file.
ghost use Rattle.std.specs.Prelude.{◌≡◌, ◌+◌, ◌<◌, ◌≤◌, ◌^◌, length, Some, Ok, Err, slice_get};
ghost use Rattle.std.specs.Prelude.{IfSome, IfNone, IfOk, IfErr, OnOk};
ghost use Rattle.fm_read.specs.Files.{chunks, tracks, contents, position};
ghost use Rattle.fm_read.specs.Files.{header_fault, header_of, behind_header};
ghost use Rattle.fm_read.specs.Tracks.{IsRead};
ghost use Rattle.fm_read.specs.FileForm.{IsFile};
ghost use Rattle.fm_read.specs.Kept.{HasHeader, contents_of, bytes_of, joined_parts};

use crate::chunk::{Chunks, has_kind, judge_rest, short_at, wide_at};
use crate::fault::{CUT, ReadFault, ReadKind, Stop};
use crate::limits::MAX_FILE;
use crate::track::Track;
use std::marker::Model;

/// A file: its header chunk, the three numbers there, and the chunks after it. It has no fault.
/// Clauses see what its bytes are read as.
#[derive(Drop)]
pub struct File<'a> {
    head: &'a [u8],
    format: u16,
    stated: u16,
    division: u16,
    rest: &'a [u8],
}

impl<'a> Model for File<'a> {
    ghost use Rattle.std.specs.Prelude.{◌++◌};
    ghost use Rattle.fm_read.specs.Files.{Contents};
    ghost use Rattle.fm_read.specs.Kept.{IsKept, chunks_of};

    ghost Value = { Contents };

    ghost view = { λ f. record {
      head = f.head.now;
      format = f.format;
      stated = f.stated;
      division = f.division;
      parts = chunks_of f.rest.now;
    } };

    ghost invariant = { λ f. IsKept f.rest.now (f.head.now ++ f.rest.now) (record {
      head = f.head.now;
      format = f.format;
      stated = f.stated;
      division = f.division;
      parts = chunks_of f.rest.now;
    }) };
}

// A fault with so many bytes left.
fn fault(kind: ReadKind, left: usize) -> Option<Stop>
    ensures { result ≡ Some (record { kind = kind; left = left }) }
{
    Some(Stop { kind, left })
}

// The first fault of a file's header chunk.
fn header_fault(bytes: &[u8]) -> Option<Stop>
    ensures read { result ≡ header_fault bytes.now }
    ensures within { IfSome result (λ s. s.left ≤ length bytes.now) }
    ensures whole { IfNone result (HasHeader bytes.now) }
{
    let len = bytes.len();
    if has_kind(b"RIFF", bytes) {
        return fault(ReadKind::Wrapped, len);
    }
    if !has_kind(b"MThd", bytes) {
        return fault(ReadKind::NotMidi, len);
    }
    if len < 8 {
        return Some(CUT);
    }
    let count = wide_at(bytes, 4);
    if count < 6 {
        return fault(ReadKind::ShortHeader, len - 4);
    }
    if len >= 10 && short_at(bytes, 8) == 2 {
        return fault(ReadKind::FormatTwo, len - 8);
    }
    if len >= 10 && short_at(bytes, 8) > 2 {
        return fault(ReadKind::BadFormat, len - 8);
    }
    if len >= 14 && short_at(bytes, 12) >= 0x8000 {
        return fault(ReadKind::Smpte, len - 12);
    }
    if (len as u64) < 8 + count as u64 {
        return Some(CUT);
    }
    None
}

impl<'a> File<'a> {
    /// The header chunk: `MThd`, its length, and as many bytes, at least six.
    pub fn head(&self) -> &'a [u8]
        ensures value { result.now ≡ self.now.head }
        ensures long { 14 ≤ length result.now }
    {
        self.head
    }

    /// The format: 0 for one track, 1 for tracks that sound together.
    pub fn format(&self) -> u16
        ensures value { result ≡ self.now.format }
        ensures known { result < 2 }
    {
        self.format
    }

    /// How many tracks the header states. `tracks` says how many there are.
    pub fn stated(&self) -> u16
        ensures { result ≡ self.now.stated }
    {
        self.stated
    }

    /// The division: how many ticks a quarter note has.
    pub fn division(&self) -> u16
        ensures value { result ≡ self.now.division }
        ensures ticks { result < 2 ^ 15 }
    {
        self.division
    }

    /// The bytes behind the header chunk: all chunks, one after another.
    pub fn rest(&self) -> &'a [u8]
        ensures value { result.now ≡ joined_parts self.now.parts }
        ensures read { chunks result.now ≡ Ok self.now.parts }
        ensures small { length self.now.head + length result.now ≤ MAX_FILE }
    {
        self.rest
    }

    /// All chunks behind the header, in order, those of unknown kinds too.
    pub fn chunks(&self) -> Chunks<'a>
        ensures value { result ≡ self.now.parts }
        ensures form { IsFile self.now }
        // The whole file is within the limit, so there are no more chunks than bytes.
        ensures small { length (bytes_of self.now) ≤ MAX_FILE }
        ensures few { length result ≤ MAX_FILE }
    {
        Chunks::new(self.rest)
    }

    /// How many of the chunks are tracks, at least one.
    pub fn tracks(&self) -> u32
        ensures value { result ≡ length (tracks self.now.parts) }
        ensures some { 0 < result }
    {
        let mut chunks = self.chunks();
        let mut count = 0;
        while let Some(chunk) = chunks.next() {
            if has_kind(b"MTrk", chunk.head) {
                count += 1;
            }
        }
        count
    }

    /// The track of this number, counted from 0 in the order of the file.
    pub fn track(&self, number: u32) -> Track<'a>
        requires { number < length (tracks self.now.parts) }
        ensures value { slice_get (tracks self.now.parts) number ≡ Some result }
        ensures few { length result ≤ MAX_FILE }
    {
        let mut chunks = self.chunks();
        let mut left = number;
        while let Some(chunk) = chunks.next() {
            if has_kind(b"MTrk", chunk.head) {
                if left == 0 {
                    return Track::of_body(chunk.body);
                }
                left -= 1;
            }
        }
        unreachable!()
    }
}

// The header chunk, and what follows it.
fn split_header(bytes: &[u8]) -> (&[u8], &[u8])
    requires { HasHeader bytes.now }
    ensures head { result.0.now ≡ header_of bytes.now }
    ensures rest { result.1.now ≡ behind_header bytes.now }
{
    bytes.split_at(8 + wide_at(bytes, 4) as usize)
}

// Whether the bytes are a file, or their first fault.
fn judge(bytes: &[u8]) -> Result<(), Stop>
    ensures ok { OnOk result (contents bytes.now ≡ Ok (contents_of bytes.now)) }
    ensures err { IfErr result (λ s. contents bytes.now ≡ Err s) }
    ensures within { IfErr result (λ s. s.left ≤ length bytes.now) }
    ensures whole { OnOk result (HasHeader bytes.now) }
    ensures there { OnOk result (IsRead (chunks (behind_header bytes.now))) }
{
    if let Some(stop) = header_fault(bytes) {
        return Err(stop);
    }
    judge_rest(split_header(bytes).1)
}

// The file that the bytes are.
fn open(bytes: &[u8]) -> File<'_>
    requires read { contents bytes.now ≡ Ok (contents_of bytes.now) }
    requires whole { HasHeader bytes.now }
    requires there { IsRead (chunks (behind_header bytes.now)) }
    requires small { length bytes.now ≤ MAX_FILE }
    ensures { result ≡ contents_of bytes.now }
{
    let (head, rest) = split_header(bytes);
    File {
        head,
        format: short_at(bytes, 8),
        stated: short_at(bytes, 10),
        division: short_at(bytes, 12),
        rest,
    }
}

/// The file that the bytes are, or why they are none: the first fault and its position. The fault
/// is the one with the least position, and at one position the one with the lowest number.
pub fn read(bytes: &[u8]) -> Result<File<'_>, ReadFault>
    requires { length bytes.now ≤ MAX_FILE }
    ensures ok { IfOk result (λ f. contents bytes.now ≡ Ok f) }
    ensures err { IfErr result
        (λ e. position bytes.now (contents bytes.now) ≡ Some (e.kind, e.position)) }
{
    match judge(bytes) {
        Ok(()) => Ok(open(bytes)),
        Err(stop) => Err(ReadFault {
            kind: stop.kind,
            position: (bytes.len() - stop.left) as u32,
        }),
    }
}
