//! A history for each of a script's tables.
ghost use Rattle.std.specs.Prelude.{◌≡◌, map, Err, IfOk};
ghost use Rattle.std.specs.List.{AllByRecursion};
ghost use Rattle.script.specs.Rows.{rows_of};
ghost use Rattle.explore.specs.{IsHistoryOf, HasMore, HasStates};
ghost use Rattle.explore.specs.Noted.{Noted};
ghost use Rattle.explore.specs.declared.error.ExploreError.{ExploreError};
ghost use Rattle.pictures.specs.Shown.{explained_of};
ghost use Rattle.checks.specs.Verdicts.{AreTablesOf};

use explore::{ExploreError, Observer, find_history_observed};
use history::Event;
use script::{Script, Table};
use std::alloc::Global;

/// These tables of a script, each with a history that leads to it. Each is searched for by itself; the observer is told of each
/// search.
pub fn explain<'a, O: Observer>(
    alloc: Global,
    script: &Script,
    tables: &'a [Table],
    limit: u32,
    observer: &mut O,
) -> Result<Vec<(&'a Table, Vec<Event>)>, ExploreError>
    requires { AreTablesOf script.now (map rows_of tables.now) }
    ensures tables { IfOk result (λ made. map (λ x. x.0) (map explained_of made.items) ≡ map rows_of tables.now) }
    ensures histories { IfOk result (λ made. AllByRecursion (λ x. IsHistoryOf script.now x.0 x.1) (map explained_of made.items)) }
    ensures too_many { result ≡ Err ExploreError.TooMany → HasMore script.now limit }
    ensures noted { Noted O.notes (HasStates script.now) observer.old observer.new }
{
    let mut made = Vec::new(alloc);
    for table in tables {
        let Some(events) = find_history_observed(alloc, script, table, limit, observer)? else {
            unreachable!()
        };
        made.push((table, events))?;
    }
    Ok(made)
}
