//! Histories, shown.
ghost use Rattle.std.specs.Prelude.{◌≡◌, ◌⊎◌, map, IfErr, IfOk};
ghost use Rattle.explore.specs.Noted.{Noted};
ghost use Rattle.explore.specs.Search.{HasStates};
ghost use Rattle.commands.specs.Status.{IsOfMemory};
ghost use Rattle.commands.specs.{given_of, look_text, none_text, IsLookFor, IsLookText, IsOfBytes, IsOfLimit, IsOfTable};

use crate::problem::Problem;
use command_line::Look;
use explore::{Observer, Script, find_history_observed};
use history::Event;
use script_text::{read_table, write_history};
use std::alloc::Global;

/// A history, shown so.
fn look_text(
    alloc: Global,
    script: &Script,
    events: &[Event],
    look: Look,
) -> Result<Vec<u8>, Problem>
    ensures text { IfOk result (λ text. text.items ≡ look_text look script.now events.now) }
    ensures memory { IfErr result IsOfMemory }
{
    match look {
        Look::Lines => Ok(write_history(alloc, script, events)?.into_bytes()),
        Look::Lanes => Ok(pictures::write_lanes(alloc, script, events)?),
        Look::Mermaid => Ok(pictures::write_mermaid(alloc, script, events)?.into_bytes()),
        Look::Json => Ok(pictures::write_history(alloc, script, events)?),
    }
}

/// That there is none.
fn none_text(alloc: Global, look: Look) -> Result<Vec<u8>, Problem>
    ensures text { IfOk result (λ text. text.items ≡ none_text look) }
    ensures memory { IfErr result IsOfMemory }
{
    match look {
        Look::Json => Ok(pictures::write_none(alloc)?),
        _ => Ok(Vec::from_slice(alloc, b"no history\n")?),
    }
}

/// A history with the table that these bytes are, or that there is none.
fn table_text<O: Observer>(
    alloc: Global,
    script: &Script,
    bytes: &[u8],
    look: Look,
    limit: u32,
    observer: &mut O,
) -> Result<Vec<u8>, Problem>
    ensures prints { IfOk result (λ text. IsLookText look script.now bytes.now text.items) }
    ensures explains { IfErr result (λ p. IsOfBytes script.now bytes.now p ⊎ IsOfLimit script.now limit p) }
    ensures noted { Noted O.notes (HasStates script.now) observer.old observer.new }
{
    let table = read_table(alloc, script, bytes)?;
    match find_history_observed(alloc, script, &table, limit, observer)? {
        Some(events) => look_text(alloc, script, &events, look),
        None => none_text(alloc, look),
    }
}

/// The same, for the first table that is given.
pub(crate) fn shown_text<O: Observer>(
    alloc: Global,
    script: &Script,
    given: &[(&str, Vec<u8>)],
    look: Look,
    limit: u32,
    observer: &mut O,
) -> Result<Vec<u8>, Problem>
    ensures prints { IfOk result (λ text. IsLookFor look script.now (map given_of given.now) text.items) }
    ensures explains { IfErr result (λ p. IsOfTable script.now (map given_of given.now) p ⊎ IsOfLimit script.now limit p) }
    ensures noted { Noted O.notes (HasStates script.now) observer.old observer.new }
{
    match given {
        [first, ..] => table_text(alloc, script, &first.1, look, limit, observer),
        [] => Err(Problem::Input),
    }
}
