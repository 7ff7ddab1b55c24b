//! A history as a sequence diagram.
ghost use Rattle.std.specs.Prelude.{◌≡◌, ◌+◌, ◌++◌, map, IfOk, OnOk};
ghost use Rattle.std.specs.String.{string_bytes};
ghost use Rattle.pictures.specs.{shown, diagram, mermaid_text, participants, step_text, steps};

use crate::lanes::Columns;
use crate::marks::{Lane, Mark, marks_of};
use history::Event;
use script::Script;
use std::alloc::{AllocError, Global};
use std::fmt::Write;

/// Writes the names of all lanes.
fn push_participants(alloc: Global, out: &mut String, columns: &Columns) -> Result<(), AllocError>
    ensures { OnOk result (string_bytes out.new ≡ string_bytes out.old ++ participants columns.now.rings columns.now.workers 0 (columns.now.rings + columns.now.workers + 2 + 1)) }
{
    for column in 0..columns.last() + 1 {
        let name = columns.name(alloc, column)?;
        writeln!(out, "    participant L{column} as {name}")?;
    }
    Ok(())
}

/// Writes an event over its lane, or an arrow from there to the ring of its target.
fn push_step(out: &mut String, columns: &Columns, mark: &Mark) -> Result<(), AllocError>
    ensures { OnOk result (string_bytes out.new ≡ string_bytes out.old ++ step_text columns.now.rings columns.now.workers (shown mark.now)) }
{
    let (from, text) = (columns.of(mark.lane), mark.text.as_str());
    match mark.target {
        None => write!(out, "    Note over L{from}: {text}"),
        Some(ring) => {
            let to = columns.of(Lane::Ring(ring));
            write!(out, "    L{from}->>L{to}: {text}")
        }
    }
}

/// Writes each event.
fn push_steps(out: &mut String, columns: &Columns, marks: &[Mark]) -> Result<(), AllocError>
    ensures { OnOk result (string_bytes out.new ≡ string_bytes out.old ++ steps columns.now.rings columns.now.workers (map shown marks.now)) }
{
    for mark in marks {
        push_step(out, columns, mark)?;
    }
    Ok(())
}

/// A history as a sequence diagram in the language of Mermaid: each event over the lane of who takes the step, in order.
pub fn write_mermaid(alloc: Global, script: &Script, events: &[Event]) -> Result<String, AllocError>
    ensures { IfOk result (λ text. string_bytes text ≡ mermaid_text script.now events.now) }
{
    let (marks, workers) = marks_of(alloc, script, events)?;
    let columns = Columns::new(script.rings.len(), workers)?;
    let mut out = String::from_str(alloc, "sequenceDiagram\n")?;
    push_participants(alloc, &mut out, &columns)?;
    push_steps(&mut out, &columns, &marks)?;
    Ok(out)
}
