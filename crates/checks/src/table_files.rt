//! Files of one table, or of several.
ghost use Rattle.std.specs.Prelude.{◌≡◌, ◌+◌, ◌*◌, ◌++◌, ◌∷◌, min, true, length, map, IfErr, IfOk, IfSome};
ghost use Rattle.script.specs.Rows.{rows_of};
ghost use Rattle.script_text.specs.TableText.{IsTableText};
ghost use Rattle.checks.specs.TableFiles.{count_text, IsPartFault, IsTablesFault, IsTablesText};

use script::{Script, Table};
use script_text::{Fault, ScriptFault, read_table};
use std::alloc::{AllocError, Global};

/// What stands before the first empty line, and what after it.
fn cut(bytes: &[u8]) -> Option<(&[u8], &[u8])>
    ensures { IfSome result (λ x. bytes.now ≡ x.0.now ++ 10 ∷ x.1.now) }
{
    let mut is_start = true;
    for (place, byte) in bytes.iter().enumerate() {
        if is_start && *byte == b'\n' {
            return Some((&bytes[..place], &bytes[place + 1..]));
        }
        is_start = *byte == b'\n';
    }
    None
}

/// The number of a line of a part of a file, where this many tables of this many lines stand before the part, each with its empty
/// line.
fn number_of(before: usize, lines: usize, line: u64) -> u64
    ensures { result ≡ min (before * (lines + 1) + line) 18446744073709551615 }
{
    (before as u64)
        .saturating_mul(lines as u64)
        .saturating_add(before as u64)
        .saturating_add(line)
}

/// The table that a part of a file is. A fault has the number of its line in the file.
fn read_part(
    alloc: Global,
    script: &Script,
    part: &[u8],
    before: usize,
) -> Result<Table, ScriptFault>
    ensures found { IfOk result (λ table. IsTableText script.now.entries.items (rows_of table) part.now) }
    ensures fault { IfErr result (IsPartFault script.now part.now before) }
{
    match read_table(alloc, script, part) {
        Ok(table) => Ok(table),
        Err(ScriptFault::Line { line, fault }) => Err(ScriptFault::Line {
            line: number_of(before, script.entries.len(), line),
            fault,
        }),
        Err(fault) => Err(fault),
    }
}

/// Whether the bytes are the line of this number of tables.
fn is_count(alloc: Global, bytes: &[u8], count: usize) -> Result<bool, AllocError>
    ensures { IfOk result (λ is. is ≡ true → bytes.now ≡ count_text count) }
{
    let line = format!(in alloc; "tables {count}\n")?;
    Ok(bytes == line.as_bytes())
}

/// The fault of a last table that no empty line follows, or of what stands in its place.
fn last_fault(alloc: Global, script: &Script, part: &[u8], before: usize) -> ScriptFault
    ensures { IsPartFault script.now part.now before result }
{
    match read_part(alloc, script, part, before) {
        Ok(_) => ScriptFault::Line {
            line: number_of(
                before,
                script.entries.len(),
                script.entries.len() as u64 + 1,
            ),
            fault: Fault::BadTable,
        },
        Err(fault) => fault,
    }
}

/// The tables of a file: one alone, or several, each followed by an empty line, and then maybe their number, as `outcomes`
/// prints it.
pub fn read_tables(alloc: Global, script: &Script, bytes: &[u8]) -> Result<Vec<Table>, ScriptFault>
    ensures found { IfOk result (λ tables. IsTablesText script.now (map rows_of tables.items) bytes.now) }
    ensures fault { IfErr result (IsTablesFault script.now bytes.now) }
{
    let mut tables = Vec::new(alloc);
    let mut rest = bytes;
    while let Some((part, after)) = cut(rest) {
        let table = read_part(alloc, script, part, tables.len())?;
        tables.push(table)?;
        rest = after;
    }
    let count = tables.len();
    if count == 0 {
        tables.push(read_part(alloc, script, rest, 0)?)?;
        return Ok(tables);
    }
    if rest.len() == 0 {
        return Ok(tables);
    }
    if is_count(alloc, rest, count)? {
        return Ok(tables);
    }
    Err(last_fault(alloc, script, rest, count))
}
