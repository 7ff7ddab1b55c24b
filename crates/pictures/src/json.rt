//! Tables, histories and verdicts as JSON texts: one value in one line.
ghost use Rattle.std.specs.Prelude.{◌≡◌, ◌++◌, false, map, IfOk};
ghost use Rattle.script.specs.Rows.{rows_of};
ghost use Rattle.serde_json.specs.Data.{null};
ghost use Rattle.serde_json.specs.View.{view};
ghost use Rattle.serde_json.specs.Written.{has_float};
ghost use Rattle.pictures.specs.{explained_data, history_data, json_text, listed, table_data, tables_data, counted_data, verdict_data, explained_of, counted_of, verdict_of};

use crate::values::{history_value, table_value};
use history::Event;
use script::{Script, Table};
use serde_json::{Value, json};
use std::alloc::{AllocError, Global};

/// The text of a value, with a line feed.
fn text_of(alloc: Global, value: &Value) -> Result<Vec<u8>, AllocError>
    requires { has_float (view value.now) ≡ false }
    ensures { IfOk result (λ text. text.items ≡ json_text (view value.now)) }
{
    let mut bytes = value.to_string(alloc)?.into_bytes();
    bytes.push(b'\n')?;
    Ok(bytes)
}

/// A table.
pub fn write_table(alloc: Global, script: &Script, table: &Table) -> Result<Vec<u8>, AllocError>
    ensures { IfOk result (λ text. text.items ≡ json_text (table_data script.now (rows_of table.now))) }
{
    let value = table_value(alloc, script, table)?;
    text_of(alloc, &value)
}

/// Tables, in order.
pub fn write_tables(alloc: Global, script: &Script, tables: &[Table]) -> Result<Vec<u8>, AllocError>
    ensures { IfOk result (λ text. text.items ≡ json_text (tables_data script.now (map rows_of tables.now))) }
{
    let mut list = Vec::new(alloc);
    for table in tables {
        list.push(table_value(alloc, script, table)?)?;
    }
    text_of(alloc, &Value::Array(list))
}

/// A table with its history.
fn explained_value(
    alloc: Global,
    script: &Script,
    one: &(&Table, Vec<Event>),
) -> Result<Value, AllocError>
    ensures { IfOk result (λ value. view value ≡ explained_data script.now (explained_of one.now)) }
{
    let table = table_value(alloc, script, one.0)?;
    let history = history_value(alloc, script, &one.1)?;
    json!(in alloc; {"history": history, "table": table})
}

/// Tables with their histories, in order.
pub fn write_explained(
    alloc: Global,
    script: &Script,
    explained: &[(&Table, Vec<Event>)],
) -> Result<Vec<u8>, AllocError>
    ensures { IfOk result (λ text. text.items ≡ json_text (listed (map (explained_data script.now) (map explained_of explained.now)))) }
{
    let mut list = Vec::new(alloc);
    for one in explained {
        list.push(explained_value(alloc, script, one)?)?;
    }
    text_of(alloc, &Value::Array(list))
}

/// A table and how often it came.
fn counted_value(alloc: Global, script: &Script, one: &(&Table, usize)) -> Result<Value, AllocError>
    ensures { IfOk result (λ value. view value ≡ counted_data script.now (counted_of one.now)) }
{
    let table = table_value(alloc, script, one.0)?;
    json!(in alloc; {"table": table, "times": one.1})
}

/// Tables and how often each came, in order.
pub fn write_counts(
    alloc: Global,
    script: &Script,
    counts: &[(&Table, usize)],
) -> Result<Vec<u8>, AllocError>
    ensures { IfOk result (λ text. text.items ≡ json_text (listed (map (counted_data script.now) (map counted_of counts.now)))) }
{
    let mut list = Vec::new(alloc);
    for one in counts {
        list.push(counted_value(alloc, script, one)?)?;
    }
    text_of(alloc, &Value::Array(list))
}

/// The name of a file and its verdict.
fn verdict_value(alloc: Global, one: &(&str, bool)) -> Result<Value, AllocError>
    ensures { IfOk result (λ value. view value ≡ verdict_data (verdict_of one.now)) }
{
    let (file, outcome) = *one;
    json!(in alloc; {"file": file, "outcome": outcome})
}

/// The names of files, each with whether its tables are the script's, in order.
pub fn write_verdicts(alloc: Global, verdicts: &[(&str, bool)]) -> Result<Vec<u8>, AllocError>
    ensures { IfOk result (λ text. text.items ≡ json_text (listed (map verdict_data (map verdict_of verdicts.now)))) }
{
    let mut list = Vec::new(alloc);
    for one in verdicts {
        list.push(verdict_value(alloc, one)?)?;
    }
    text_of(alloc, &Value::Array(list))
}

/// A history.
pub fn write_history(
    alloc: Global,
    script: &Script,
    events: &[Event],
) -> Result<Vec<u8>, AllocError>
    ensures { IfOk result (λ text. text.items ≡ json_text (history_data script.now events.now)) }
{
    let value = history_value(alloc, script, events)?;
    text_of(alloc, &value)
}

/// That there is none.
pub fn write_none(alloc: Global) -> Result<Vec<u8>, AllocError>
    ensures { IfOk result (λ text. text.items ≡ json_text null) }
{
    text_of(alloc, &Value::Null)
}
