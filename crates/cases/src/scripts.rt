//! Scripts, tables, histories and searches.
use crate::entries::event_of;
use crate::printed::{Printed, Slip, said, shown, yes};
use crate::runs::{Machine, answered, folded, unfolded};
use crate::words::Words;
use explore::{ExploreError, Script, find_history, outcomes, outcomes_by_every_step};
use history::Event;
use limits::STATES;
use model::Object;
use script_text::{read_script, read_table, write_history, write_table};
use std::alloc::{AllocError, Global};

/// Two rings and three entries: the requests of `a` and `b` are the first two of ring 0, that of `c` is the first of ring 1.
const SCRIPT: &[u8] =
    b"ring 4\nring 4\non 0\nnop a\nsubmit\nwait c\ntimeout b 7\nsubmit\non 1\nnop c\nsubmit\non clock\ntick 3\n";

/// The script of a text.
fn script_of(alloc: Global, text: &str) -> Result<Script, Slip> {
    read_script(alloc, &unfolded(alloc, text)?).map_err(|_| Slip::BadLine)
}

/// What is printed of a script: `read`, or its fault.
pub fn printed(alloc: Global, script: &[u8]) -> Printed {
    match read_script(alloc, script) {
        Ok(_) => said(alloc, "read"),
        Err(fault) => shown(alloc, &fault),
    }
}

/// What is printed of a whole script: as of any, if each of its beginnings is a script or has a fault.
pub fn printed_of_whole(alloc: Global, script: &[u8]) -> Printed {
    for len in 0..script.len() {
        let printed = printed(alloc, &script[..len])?;
        if printed.as_str() != "read" && !printed.as_str().starts_with("line ") {
            return Ok(printed);
        }
    }
    printed(alloc, script)
}

/// What is printed of a script whose one WRITE has a TEXT of this many bytes.
pub fn printed_of_long(words: &mut Words<'_>) -> Printed {
    let (alloc, count) = (words.alloc, words.number());
    words.end()?;
    let mut script = Vec::from_slice(alloc, b"pipe 16\nring 8\non 0\nwrite w 1 ")?;
    script.extend_from_slice(&vec![in alloc; b'x'; count]?)?;
    script.extend_from_slice(b"\nsubmit\n")?;
    printed(alloc, &script)
}

/// What a script says: its rings, its entries, and the lines of each actor.
pub fn said_by(alloc: Global, text: &str) -> Printed {
    let script = script_of(alloc, text)?;
    let mut said = format!(in alloc; "rings {:?}", script.rings)?;
    for entry in &script.entries {
        let (label, sqe, length) = (&entry.label, entry.sqe, entry.buffer.len());
        said.push_str(format!(in alloc; "; {label}: {sqe}, {length} bytes")?.as_str())?;
    }
    for lines in &script.acts {
        said.push_str(format!(in alloc; "; {lines:?}")?.as_str())?;
    }
    said.push_str(format!(in alloc; "; clock {:?}", script.clock)?.as_str())?;
    Ok(said)
}

/// What is printed of a table of a script: `read` where it is read and written again as it was, or its fault.
pub fn printed_of_table(alloc: Global, text: &str, table: &str) -> Printed {
    let (script, table) = (script_of(alloc, text)?, unfolded(alloc, table)?);
    let read = match read_table(alloc, &script, &table) {
        Ok(read) => read,
        Err(fault) => return shown(alloc, &fault),
    };
    let again = write_table(alloc, &script, &read).map_err(|_| Slip::Memory)?;
    let is_same = again.as_slice() == table.as_slice();
    said(alloc, if is_same { "read" } else { "written otherwise" })
}

/// Some events as a history of a script, by their requests.
pub fn printed_of_events(alloc: Global, items: &str) -> Printed {
    let script = read_script(alloc, SCRIPT).map_err(|_| Slip::BadLine)?;
    let mut events = Vec::new(alloc);
    for item in items.split(", ") {
        let mut words = Words::of(alloc, item);
        events.push(event_of(&mut words)?)?;
        words.end()?;
    }
    let mut text = write_history(alloc, &script, &events)?.into_bytes();
    Ok(folded(alloc, &mut text)?)
}

/// How many tables a search finds, or that there are too many states. The words have the most states of a search, and how often it is
/// made, so that its speed can be measured.
pub fn search(alloc: Global, text: &str, words: &mut Words<'_>) -> Printed {
    let script = script_of(alloc, text)?;
    let (limit, rounds) = (words.number::<u32>(), words.number::<u32>());
    words.end()?;
    for _ in 1..rounds {
        let _ = outcomes(alloc, &script, limit);
    }
    match outcomes(alloc, &script, limit) {
        Ok(tables) => {
            let count = tables.len();
            Ok(format!(in alloc; "{count} tables")?)
        }
        Err(ExploreError::TooMany) => said(alloc, "too many states"),
        Err(ExploreError::Memory) => Err(Slip::Memory),
    }
}

/// Whether the search finds the tables that the one by every step finds. The words have the most states of each.
pub fn agrees(alloc: Global, text: &str, words: &mut Words<'_>) -> Printed {
    let script = script_of(alloc, text)?;
    let limit = words.number::<u32>();
    words.end()?;
    let Ok(all) = outcomes_by_every_step(alloc, &script, limit) else {
        return said(alloc, "too many states");
    };
    let is_same = match outcomes(alloc, &script, limit) {
        Ok(tables) => tables == all,
        Err(_) => false,
    };
    said(alloc, if is_same { "the same" } else { "others" })
}

/// The one-thread ring accepts these events, one after another.
fn is_accepted(alloc: Global, script: &Script, events: &[Event]) -> Result<bool, Slip> {
    let rings = u16::try_from(script.rings.len()).map_err(|_| Slip::BadLine)?;
    let mut ring = Object::new(alloc, rings, &script.pipes)?;
    for event in events {
        if ring.apply(event).is_err() {
            return Ok(false);
        }
    }
    Ok(true)
}

/// Whether the history that is printed for a script and a table is one that the one-thread ring accepts, event by event.
pub fn is_legal<R: Machine>(rt: &R, text: &str, table: &str) -> Printed {
    let alloc = rt.alloc();
    let (status, printed) = answered(rt, "history", text, table)?;
    let script = script_of(alloc, text)?;
    let table = read_table(alloc, &script, &unfolded(alloc, table)?).map_err(|_| Slip::BadLine)?;
    let Ok(Some(events)) = find_history(alloc, &script, &table, STATES) else {
        return yes(alloc, false);
    };
    let mut text = write_history(alloc, &script, &events)?.into_bytes();
    let is_printed = folded(alloc, &mut text)?.as_str() == printed.as_str();
    let is_accepted = is_accepted(alloc, &script, &events)?;
    yes(alloc, status == 0 && is_printed && is_accepted)
}
