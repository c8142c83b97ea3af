//! One entry of a track.
ghost use Rattle.std.specs.Prelude.{◌<◌, ◌≤◌, length, IfOk, IfErr};
ghost use Rattle.fm_read.specs.Reading.{Gives, past_data, past_message, past_text, past_meta};
ghost use Rattle.fm_read.specs.Reading.{read_channel, read_event, read_entry};
ghost use Rattle.fm_read.specs.Tracks.{as_pair};

use crate::fault::{CUT, ReadKind, Stop};
use crate::quantity::quantity_of;

/// A delta time and an event, as they lie in the file.
#[derive(Clone, Copy)]
pub struct Entry<'a> {
    /// The ticks since the entry before, below 2^28.
    pub delta: u32,
    /// The event's status byte, or the running status where the event has none of its own.
    pub status: u8,
    /// The bytes of the delta time.
    pub lead: &'a [u8],
    /// The bytes of the event.
    pub bytes: &'a [u8],
}

// What follows a data byte, or the type of a meta event.
#[tactic(auto, unfolding(crate::specs::Reading::past_data))]
fn past_data(bytes: &[u8]) -> Result<&[u8], Stop>
    ensures read { Gives (λ x. x.now) result (past_data bytes.now) }
    ensures shorter { IfOk result (λ x. length x.now < length bytes.now) }
    ensures within { IfErr result (λ s. s.left ≤ length bytes.now) }
{
    let Some((byte, rest)) = bytes.split_first() else {
        return Err(CUT);
    };
    if *byte < 128 {
        Ok(rest)
    } else {
        Err(Stop {
            kind: ReadKind::BadData,
            left: bytes.len(),
        })
    }
}

// What follows the data bytes of a channel message of this status.
#[tactic(auto, unfolding(crate::specs::Reading::past_message))]
fn past_message(status: u8, bytes: &[u8]) -> Result<&[u8], Stop>
    ensures read { Gives (λ x. x.now) result (past_message status bytes.now) }
    ensures shorter { IfOk result (λ x. length x.now < length bytes.now) }
    ensures within { IfErr result (λ s. s.left ≤ length bytes.now) }
{
    let rest = past_data(bytes)?;
    if 192 <= status && status < 224 {
        Ok(rest)
    } else {
        past_data(rest)
    }
}

// What follows a length and as many bytes.
#[tactic(auto, unfolding(crate::specs::Reading::past_text))]
fn past_text(bytes: &[u8]) -> Result<&[u8], Stop>
    ensures read { Gives (λ x. x.now) result (past_text bytes.now) }
    ensures shorter { IfOk result (λ x. length x.now < length bytes.now) }
    ensures within { IfErr result (λ s. s.left ≤ length bytes.now) }
{
    let (count, rest) = quantity_of(bytes)?;
    let count = count as usize;
    if rest.len() < count {
        return Err(CUT);
    }
    Ok(&rest[count..])
}

// What follows a type, a length and as many bytes.
#[tactic(auto, unfolding(crate::specs::Reading::past_meta))]
fn past_meta(bytes: &[u8]) -> Result<&[u8], Stop>
    ensures read { Gives (λ x. x.now) result (past_meta bytes.now) }
    ensures shorter { IfOk result (λ x. length x.now < length bytes.now) }
    ensures within { IfErr result (λ s. s.left ≤ length bytes.now) }
{
    let rest = past_data(bytes)?;
    past_text(rest)
}

// A channel message of the status in force, and what follows it.
#[tactic(auto, unfolding(crate::specs::Reading::read_channel))]
fn channel_of(running: Option<u8>, bytes: &[u8]) -> Result<(u8, &[u8]), Stop>
    ensures read { Gives (λ x. (x.0, x.1.now)) result (read_channel running bytes.now) }
    ensures shorter { IfOk result (λ x. length x.1.now < length bytes.now) }
    ensures within { IfErr result (λ s. s.left ≤ length bytes.now) }
{
    let Some(status) = running else {
        return Err(Stop {
            kind: ReadKind::NoStatus,
            left: bytes.len(),
        });
    };
    let rest = past_message(status, bytes)?;
    Ok((status, rest))
}

// An event's status and what follows the event, where this status is in force before it.
#[tactic(auto, unfolding(crate::specs::Reading::read_event))]
fn event_of(running: Option<u8>, bytes: &[u8]) -> Result<(u8, &[u8]), Stop>
    ensures read { Gives (λ x. (x.0, x.1.now)) result (read_event running bytes.now) }
    ensures shorter { IfOk result (λ x. length x.1.now < length bytes.now) }
    ensures within { IfErr result (λ s. s.left ≤ length bytes.now) }
{
    let Some((byte, rest)) = bytes.split_first() else {
        return Err(CUT);
    };
    if *byte < 128 {
        return channel_of(running, bytes);
    }
    if *byte < 240 {
        return channel_of(Some(*byte), rest);
    }
    if *byte == 255 {
        let after = past_meta(rest)?;
        return Ok((*byte, after));
    }
    if *byte == 240 || *byte == 247 {
        let after = past_text(rest)?;
        return Ok((*byte, after));
    }
    Err(Stop {
        kind: ReadKind::BadStatus,
        left: bytes.len(),
    })
}

/// An entry and what follows it, where this status is in force before it.
#[tactic(auto, unfolding(crate::specs::Reading::read_entry))]
pub fn entry_of(running: Option<u8>, bytes: &[u8]) -> Result<(Entry<'_>, &[u8]), Stop>
    ensures read { Gives (λ x. (as_pair x.0, x.1.now)) result (read_entry running bytes.now) }
    ensures shorter { IfOk result (λ x. length x.1.now < length bytes.now) }
    ensures within { IfErr result (λ s. s.left ≤ length bytes.now) }
{
    let (delta, after) = quantity_of(bytes)?;
    let (status, rest) = event_of(running, after)?;
    let lead = &bytes[..bytes.len() - after.len()];
    let event = &after[..after.len() - rest.len()];
    Ok((
        Entry {
            delta,
            status,
            lead,
            bytes: event,
        },
        rest,
    ))
}
