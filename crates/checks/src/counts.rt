//! How often each table came.
ghost use Rattle.std.specs.Prelude.{◌≡◌, map, IfOk};
ghost use Rattle.script.specs.Rows.{rows_of};
ghost use Rattle.pictures.specs.Shown.{counted_of};
ghost use Rattle.checks.specs.Counts.{count_of, has_rows, counts_of};

use crate::listed::are_same;
use script::Table;
use std::alloc::{AllocError, Global};

/// How often the table is among these.
fn count_of(tables: &[Table], table: &Table) -> usize
    ensures { result ≡ count_of (rows_of table.now) (map rows_of tables.now) }
{
    let mut count = 0;
    for one in tables {
        if are_same(table, one) {
            count += 1;
        }
    }
    count
}

/// Whether the table is among these.
fn has_rows(tables: &[Table], table: &Table) -> bool
    ensures { result ≡ has_rows (rows_of table.now) (map rows_of tables.now) }
{
    for one in tables {
        if are_same(table, one) {
            return true;
        }
    }
    false
}

/// The tables of these runs, each once, in the order in which they first came, and how often each did.
pub fn counts_of<'a>(
    alloc: Global,
    runs: &'a [Table],
) -> Result<Vec<(&'a Table, usize)>, AllocError>
    ensures { IfOk result (λ made. map counted_of made.items ≡ counts_of (map rows_of runs.now)) }
{
    let mut made = Vec::new(alloc);
    for place in 0..runs.len() {
        let one = &runs[place];
        if !has_rows(&runs[..place], one) {
            made.push((one, count_of(runs, one)))?;
        }
    }
    Ok(made)
}
