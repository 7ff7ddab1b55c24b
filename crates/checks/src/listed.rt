//! Whether tables are among others.
ghost use Rattle.std.specs.Prelude.{◌≡◌, ◌↔◌, IsTrue, map};
ghost use Rattle.script.specs.Rows.{rows_of};
ghost use Rattle.explore.specs.Courses.{Among};
ghost use Rattle.checks.specs.{is_same, AreAmong};

use script::Table;
use std::cmp::Ordering;

/// The tables have the same rows.
pub(crate) fn are_same(a: &Table, b: &Table) -> bool
    ensures same { IsTrue result ↔ rows_of a.now ≡ rows_of b.now }
    ensures value { result ≡ is_same (rows_of a.now) (rows_of b.now) }
{
    matches!(a.cmp(b), Ordering::Equal)
}

/// The table is among these.
fn is_listed(tables: &[Table], table: &Table) -> bool
    ensures { IsTrue result ↔ Among (rows_of table.now) (map rows_of tables.now) }
{
    for one in tables {
        if are_same(table, one) {
            return true;
        }
    }
    false
}

/// Each of these tables is among those.
pub fn are_listed(tables: &[Table], given: &[Table]) -> bool
    ensures { IsTrue result ↔ AreAmong (map rows_of given.now) (map rows_of tables.now) }
{
    for one in given {
        if !is_listed(tables, one) {
            return false;
        }
    }
    true
}
