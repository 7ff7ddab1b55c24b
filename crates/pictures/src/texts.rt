//! Plain texts of explained outcomes, of many runs, and of verdicts.
ghost use Rattle.std.specs.Prelude.{◌≡◌, ◌++◌, codes, decimal, map, IfOk, OnOk};
ghost use Rattle.script.specs.Rows.{rows_of};
ghost use Rattle.script_text.specs.{history_text, table_text};
ghost use Rattle.pictures.specs.{explained_of, counted_of, verdict_of, explained_lines, explained_text, counts_lines, counts_text, verdict_lines, verdict_word};

use history::Event;
use script::{Script, Table};
use script_text::{Memory, write_history, write_table};
use std::alloc::{AllocError, Global};

/// Writes a table and its history, each followed by an empty line.
fn push_explained(
    alloc: Global,
    script: &Script,
    out: &mut Vec<u8>,
    table: &Table,
    history: &[Event],
) -> Result<(), Memory>
    ensures { OnOk result (out.new.items ≡ out.old.items ++ (table_text script.now.entries.items (rows_of table.now) ++ (codes "\n" ++ (history_text script.now history.now ++ codes "\n")))) }
{
    let table = write_table(alloc, script, table)?;
    out.extend_from_slice(&table)?;
    out.push(b'\n')?;
    let history = write_history(alloc, script, history)?;
    out.extend_from_slice(history.as_bytes())?;
    out.push(b'\n')?;
    Ok(())
}

/// Each table with its history, each followed by an empty line, and how many tables there are.
pub fn explained_text(
    alloc: Global,
    script: &Script,
    explained: &[(&Table, Vec<Event>)],
) -> Result<Vec<u8>, Memory>
    ensures { IfOk result (λ text. text.items ≡ explained_text script.now (map explained_of explained.now)) }
{
    let mut out = Vec::new(alloc);
    for one in explained {
        push_explained(alloc, script, &mut out, one.0, &one.1)?;
    }
    let count = explained.len();
    out.extend_from_slice(format!(in alloc; "tables {count}\n")?.as_bytes())?;
    Ok(out)
}

/// Writes how often a table came, after an empty line, and another one.
fn push_times(alloc: Global, out: &mut Vec<u8>, times: usize) -> Result<(), AllocError>
    ensures { OnOk result (out.new.items ≡ out.old.items ++ (codes "\ntimes " ++ (decimal times ++ codes "\n\n"))) }
{
    let told = format!(in alloc; "\ntimes {times}\n\n")?;
    out.extend_from_slice(told.as_bytes())
}

/// Each table and how often it came, each followed by an empty line, and how many runs there were.
pub fn counts_text(
    alloc: Global,
    script: &Script,
    counts: &[(&Table, usize)],
    runs: usize,
) -> Result<Vec<u8>, Memory>
    ensures { IfOk result (λ text. text.items ≡ counts_text script.now (map counted_of counts.now) runs) }
{
    let mut out = Vec::new(alloc);
    for one in counts {
        out.extend_from_slice(&write_table(alloc, script, one.0)?)?;
        push_times(alloc, &mut out, one.1)?;
    }
    out.extend_from_slice(format!(in alloc; "runs {runs}\n")?.as_bytes())?;
    Ok(out)
}

/// The word for a verdict.
fn word_of(verdict: bool) -> &'static str
    ensures { result.now ≡ verdict_word verdict }
{
    if verdict { "yes" } else { "no" }
}

/// The name of each file, and whether its tables are the script's, a line each.
pub fn verdicts_text(alloc: Global, verdicts: &[(&str, bool)]) -> Result<Vec<u8>, AllocError>
    ensures { IfOk result (λ text. text.items ≡ verdict_lines (map verdict_of verdicts.now)) }
{
    let mut out = Vec::new(alloc);
    for one in verdicts {
        out.extend_from_slice(one.0.as_bytes())?;
        out.extend_from_slice(b": ")?;
        out.extend_from_slice(word_of(one.1).as_bytes())?;
        out.push(b'\n')?;
    }
    Ok(out)
}
