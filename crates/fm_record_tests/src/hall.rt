//! Lines of processes, over which halls are opened.

mod pieces;
mod worked;

use fm_line::{Events, Line, Processes};
use fm_msg::{Event, Msg};
use std::alloc::{AllocError, Global};

// The line of a process among these pairs: the processes it waits for, and its events' times.
fn line(
    alloc: Global,
    own: u32,
    end: u64,
    waits: &[(u32, u32)],
    times: &[(u32, u64)],
) -> Result<Line, AllocError> {
    let mut events = Vec::new(alloc);
    for (process, time) in times {
        if *process == own {
            let index = u32::try_from(events.len()).unwrap_or(0);
            events.push(Event::new(
                *time,
                own,
                index,
                Msg::Off {
                    channel: 0,
                    key: 60,
                },
            ))?;
        }
    }
    let mut predecessors = Vec::new(alloc);
    for (process, predecessor) in waits {
        if *process == own {
            predecessors.push(*predecessor)?;
        }
    }
    Ok(Line {
        events: Events::new(events),
        predecessors: Processes::new(predecessors),
        end,
    })
}

// One line for each end.
fn lines(
    alloc: Global,
    ends: &[u64],
    waits: &[(u32, u32)],
    times: &[(u32, u64)],
) -> Result<Vec<Line>, AllocError> {
    let mut made = Vec::new(alloc);
    for end in ends {
        let own = u32::try_from(made.len()).unwrap_or(0);
        made.push(line(alloc, own, *end, waits, times)?)?;
    }
    Ok(made)
}
