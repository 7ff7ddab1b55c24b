//! A history as a table in text.
ghost use Rattle.std.specs.Prelude.{◌≡◌, ◌+◌, ◌<◌, ◌≤◌, ◌++◌, length, map, replicate, IfOk, OnOk};
ghost use Rattle.std.specs.String.{string_bytes};
ghost use Rattle.pictures.specs.{shown, cell, column_of, head_cells, lanes_text, longest, name_of, picture, row_cells, rows, rule_cells, short, width_of, widths};

use crate::marks::{Lane, Mark, marks_of};
use history::Event;
use script::Script;
use std::alloc::{AllocError, Global};

/// More rings or workers than memory holds.
const MOST: usize = 1 << 61;

/// The rings and the workers that have columns.
#[derive(Clone, Copy)]
pub(crate) struct Columns {
    pub rings: usize,
    pub workers: usize,
    pub ghost few: { rings + workers < 9223372036854775807 },
}

impl Columns {
    /// The columns of this many rings and workers. More than there can be count as want of memory.
    pub fn new(rings: usize, workers: usize) -> Result<Columns, AllocError>
        ensures { IfOk result (λ columns. (columns.rings ≡ rings) × (columns.workers ≡ workers)) }
    {
        if rings >= MOST || workers >= MOST {
            return Err(AllocError);
        }
        Ok(Columns { rings, workers })
    }

    /// The column of the last lane, the end.
    pub fn last(&self) -> usize
        ensures { result ≡ self.now.rings + self.now.workers + 2 }
    {
        self.rings + self.workers + 2
    }

    /// The column of a lane.
    pub fn of(&self, lane: Lane) -> usize
        ensures { result ≡ column_of self.now.rings self.now.workers lane }
    {
        match lane {
            Lane::Ring(ring) => (ring as usize).min(self.last()),
            Lane::Poller => self.rings,
            Lane::Worker(worker) => (self.rings + 1).saturating_add(worker).min(self.last()),
            Lane::Clock => self.rings + self.workers + 1,
            Lane::End => self.last(),
        }
    }

    /// The name of a column.
    pub fn name(&self, alloc: Global, column: usize) -> Result<String, AllocError>
        ensures { IfOk result (λ name. string_bytes name ≡ name_of self.now.rings self.now.workers column) }
    {
        if column < self.rings {
            format!(in alloc; "ring {column}")
        } else if column == self.rings {
            String::from_str(alloc, "poller")
        } else if column < self.rings + self.workers + 1 {
            let worker = column - self.rings - 1;
            format!(in alloc; "worker {worker}")
        } else if column == self.rings + self.workers + 1 {
            String::from_str(alloc, "clock")
        } else {
            String::from_str(alloc, "end")
        }
    }
}

/// An event's line without its line feed.
fn short(text: &[u8]) -> &[u8]
    ensures { result.now ≡ short text.now }
{
    &text[..text.len().saturating_sub(1)]
}

/// Writes a byte this many times.
fn push_times(out: &mut Vec<u8>, byte: u8, count: usize) -> Result<(), AllocError>
    ensures { OnOk result (out.new.items ≡ out.old.items ++ replicate count byte) }
{
    for done in 0..count {
        out.push(byte)?;
    }
    Ok(())
}

/// Writes a cell of this width.
fn push_cell(out: &mut Vec<u8>, text: &[u8], width: usize) -> Result<(), AllocError>
    ensures { OnOk result (out.new.items ≡ out.old.items ++ cell text.now width) }
{
    out.extend_from_slice(b"| ")?;
    out.extend_from_slice(text)?;
    push_times(out, b' ', width.saturating_sub(text.len()))?;
    out.push(b' ')?;
    Ok(())
}

/// The length of the longest text in this column.
fn longest(columns: &Columns, column: usize, marks: &[Mark]) -> usize
    ensures { result ≡ longest columns.now.rings columns.now.workers column (map shown marks.now) }
{
    let mut most = 0;
    for mark in marks {
        if columns.of(mark.lane) == column {
            most = most.max(short(mark.text.as_bytes()).len());
        }
    }
    most
}

/// The width of each column.
fn widths_of(alloc: Global, columns: &Columns, marks: &[Mark]) -> Result<Vec<usize>, AllocError>
    ensures { IfOk result (λ made. made.items ≡ widths columns.now.rings columns.now.workers (map shown marks.now)) }
{
    let mut made = Vec::new(alloc);
    for column in 0..columns.last() + 1 {
        let name = columns.name(alloc, column)?;
        made.push(name.as_bytes().len().max(longest(columns, column, marks)))?;
    }
    Ok(made)
}

/// Writes the names of the columns.
fn push_head(
    alloc: Global,
    out: &mut Vec<u8>,
    columns: &Columns,
    widths: &[usize],
) -> Result<(), AllocError>
    ensures { OnOk result (out.new.items ≡ out.old.items ++ head_cells columns.now.rings columns.now.workers 0 widths.now) }
{
    for column in 0..widths.len() {
        let name = columns.name(alloc, column)?;
        push_cell(out, name.as_bytes(), widths[column])?;
    }
    out.extend_from_slice(b"|\n")
}

/// Writes the line between the names and the events.
fn push_rule(out: &mut Vec<u8>, widths: &[usize]) -> Result<(), AllocError>
    ensures { OnOk result (out.new.items ≡ out.old.items ++ rule_cells widths.now) }
{
    for width in widths {
        out.extend_from_slice(b"|-")?;
        push_times(out, b'-', *width)?;
        out.push(b'-')?;
    }
    out.extend_from_slice(b"|\n")
}

/// Writes a text in its column, and nothing in the others.
fn push_row(
    out: &mut Vec<u8>,
    widths: &[usize],
    wanted: usize,
    text: &[u8],
) -> Result<(), AllocError>
    ensures { OnOk result (out.new.items ≡ out.old.items ++ row_cells 0 widths.now wanted text.now) }
{
    for column in 0..widths.len() {
        let shown = if column == wanted { text } else { b"" };
        push_cell(out, shown, widths[column])?;
    }
    out.extend_from_slice(b"|\n")
}

/// Writes a row for each event.
fn push_rows(
    out: &mut Vec<u8>,
    columns: &Columns,
    widths: &[usize],
    marks: &[Mark],
) -> Result<(), AllocError>
    ensures { OnOk result (out.new.items ≡ out.old.items ++ rows columns.now.rings columns.now.workers widths.now (map shown marks.now)) }
{
    for mark in marks {
        push_row(
            out,
            widths,
            columns.of(mark.lane),
            short(mark.text.as_bytes()),
        )?;
    }
    Ok(())
}

/// The table of these events.
fn picture(alloc: Global, columns: &Columns, marks: &[Mark]) -> Result<Vec<u8>, AllocError>
    ensures { IfOk result (λ text. text.items ≡ picture columns.now.rings columns.now.workers (map shown marks.now)) }
{
    let widths = widths_of(alloc, columns, marks)?;
    let mut out = Vec::new(alloc);
    push_head(alloc, &mut out, columns, &widths)?;
    push_rule(&mut out, &widths)?;
    push_rows(&mut out, columns, &widths, marks)?;
    Ok(out)
}

/// A history as a table in text: a column for each submitter of a ring, the poller, each worker that runs at once, the clock
/// and the end, and a row for each event, in order.
pub fn write_lanes(alloc: Global, script: &Script, events: &[Event]) -> Result<Vec<u8>, AllocError>
    ensures { IfOk result (λ text. text.items ≡ lanes_text script.now events.now) }
{
    let (marks, workers) = marks_of(alloc, script, events)?;
    let columns = Columns::new(script.rings.len(), workers)?;
    picture(alloc, &columns, &marks)
}
