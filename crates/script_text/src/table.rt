//! Tables as text.
ghost use Rattle.std.specs.Prelude.{◌≡◌, ℤ, ℕ, List, IfErr, IfOk, OnOk, IfSome, IsSomeAnd, MatchResult, ◌++◌};
ghost use Rattle.std.specs.String.{string_bytes};
ghost use Rattle.text.specs.Line.{IsLine, line_text};
ghost use Rattle.script_text.specs.TableText.{IsBadLine, IsTableFault, IsTableText, is_read, shown_lines, table_text};
ghost use Rattle.script_text.specs.declared.fault.Fault.TheVariants.{BadTable};
ghost use Rattle.script_text.specs.declared.fault.ScriptFault.TheVariants.{Line};

use crate::fault::{Fault, Memory, ScriptFault};
use entry::{Op, by_opcode};
use script::{Named, Script, Table};
use std::alloc::{AllocError, Global};
use text::{line_at, push_line};

/// Whether the reply comes with data, which the line of the entry shows.
macro_rules! brings_data {
    ([no_buffer] ()) => { false };
    ([reads $len:ident] ()) => { true };
    ([writes $len:ident] ()) => { false };
    ([any_buffer] ()) => { false };
}

fn is_read(op: Op) -> bool
    ensures { result ≡ is_read op }
{
    by_opcode!(buffer of op => brings_data!())
}

/// Writes the line of an entry at the end.
fn push_entry(
    alloc: Global,
    out: &mut Vec<u8>,
    entry: &Named,
    line: &(i32, Vec<u8>),
) -> Result<(), AllocError>
    ensures { OnOk result (out.new.items ≡ out.old.items ++ line_text (string_bytes entry.now.label) line.now.0 line.now.1.items) }
{
    push_line(alloc, out, entry.label.as_bytes(), line.0, &line.1)
}

/// The text of a table: a line for each entry of the script, in order, as far as the table has lines.
pub fn write_table(alloc: Global, script: &Script, table: &Table) -> Result<Vec<u8>, Memory>
    ensures { IfOk result (λ text. text.items ≡ table_text script.now.entries.items (shown_lines table.now.lines.items)) }
{
    let mut out = Vec::new(alloc);
    for (entry, line) in script.entries.iter().zip(&table.lines) {
        push_entry(alloc, &mut out, entry, line)?;
    }
    Ok(out)
}

/// The line of an entry at the front of the bytes: its reply, its data and what is after it.
fn entry_line<'a>(
    alloc: Global,
    entry: &Named,
    bytes: &'a [u8],
) -> Result<Option<(i32, Vec<u8>, &'a [u8])>, AllocError>
    ensures found { IfOk result (λ o. IfSome o (λ x. IsLine (is_read entry.now.sqe.op) x.0 x.1.items
        × (bytes.now ≡ line_text (string_bytes entry.now.label) x.0 x.1.items ++ x.2.now))) }
    ensures only { IfOk result (λ o. (reply : ℤ) (shown rest : List ℕ) → IsLine (is_read entry.now.sqe.op) reply shown
        → bytes.now ≡ line_text (string_bytes entry.now.label) reply shown ++ rest
        → IsSomeAnd o (λ x. (x.0 ≡ reply) × (x.1.items ≡ shown) × (x.2.now ≡ rest))) }
{
    line_at(
        alloc,
        entry.label.as_bytes(),
        is_read(entry.sqe.op()),
        bytes,
    )
}

/// The table that a text writes. A fault has the number of the first line that is not its entry's line, or is one too many;
/// where a line is missing, that is the number after the last line.
pub fn read_table(alloc: Global, script: &Script, bytes: &[u8]) -> Result<Table, ScriptFault>
    // What is read is written so.
    ensures found { IfOk result (λ table. IsTableText script.now.entries.items (shown_lines table.lines.items) bytes.now) }
    // What is written so is read, unless memory runs out.
    ensures only { (lines : List (ℤ × List ℕ)) → IsTableText script.now.entries.items lines bytes.now
        → MatchResult result (λ table. shown_lines table.lines.items ≡ lines) (λ e. e ≡ ScriptFault.Memory) }
    // What is answered in place of a table is `bad table` at the first line that differs, unless memory ran out.
    ensures fault { IfErr result (IsTableFault script.now.entries.items bytes.now) }
{
    let mut lines = Vec::new(alloc);
    let mut rest = bytes;
    for entry in &script.entries {
        let Some((reply, data, behind)) = entry_line(alloc, entry, rest)? else {
            return Err(bad_line(lines.len() as u64 + 1));
        };
        lines.push((reply, data))?;
        rest = behind;
    }
    if !rest.is_empty() {
        return Err(bad_line(lines.len() as u64 + 1));
    }
    Ok(Table { lines })
}

/// The fault of a table's line.
fn bad_line(line: u64) -> ScriptFault
    ensures { result ≡ Line line BadTable }
{
    ScriptFault::Line {
        line,
        fault: Fault::BadTable,
    }
}
