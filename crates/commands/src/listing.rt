//! Outcomes, listed.
ghost use Rattle.std.specs.Prelude.{◌≡◌, true, map, IfErr, IfOk};
ghost use Rattle.script.specs.Rows.{rows_of};
ghost use Rattle.explore.specs.Noted.{Noted};
ghost use Rattle.explore.specs.Search.{HasStates};
ghost use Rattle.checks.specs.Verdicts.{AreTablesOf};
ghost use Rattle.commands.specs.{counted_text, IsListText, IsTablesText, IsOfLimit, IsOfMemory};

use crate::problem::Problem;
use crate::progress::nanos_since;
use crate::told::Stats;
use checks::explain;
use explore::{Observer, Script, Table, survey_script_observed};
use script_text::write_table;
use std::alloc::Global;
use std::time::{Clock, Instant};

/// How a list is asked for.
#[derive(Clone, Copy)]
pub(crate) struct Listing {
    pub explain: bool,
    pub limit: u32,
    pub json: bool,
}

/// A list, and how it was found.
#[derive(Drop)]
pub(crate) struct Listed {
    pub text: Vec<u8>,
    pub stats: Stats,
}

/// These tables of a script with histories.
fn explained_text<O: Observer>(
    alloc: Global,
    script: &Script,
    tables: &[Table],
    listing: Listing,
    observer: &mut O,
) -> Result<Vec<u8>, Problem>
    requires { AreTablesOf script.now (map rows_of tables.now) }
    ensures text { IfOk result (λ text. IsTablesText true listing.json script.now (map rows_of tables.now) text.items) }
    ensures explains { IfErr result (IsOfLimit script.now listing.limit) }
    ensures noted { Noted O.notes (HasStates script.now) observer.old observer.new }
{
    let explained = explain(alloc, script, tables, listing.limit, observer)?;
    if listing.json {
        Ok(pictures::write_explained(alloc, script, &explained)?)
    } else {
        Ok(pictures::explained_text(alloc, script, &explained)?)
    }
}

/// These tables, each followed by an empty line, and how many there are.
fn counted_text(alloc: Global, script: &Script, tables: &[Table]) -> Result<Vec<u8>, Problem>
    ensures text { IfOk result (λ text. text.items ≡ counted_text script.now (map rows_of tables.now)) }
    ensures memory { IfErr result IsOfMemory }
{
    let mut text = Vec::new(alloc);
    for table in tables {
        text.extend_from_slice(&write_table(alloc, script, table)?)?;
        text.push(b'\n')?;
    }
    let count = tables.len();
    text.extend_from_slice(format!(in alloc; "tables {count}\n")?.as_bytes())?;
    Ok(text)
}

/// These tables of a script.
fn tables_text<O: Observer>(
    alloc: Global,
    script: &Script,
    tables: &[Table],
    listing: Listing,
    observer: &mut O,
) -> Result<Vec<u8>, Problem>
    requires { AreTablesOf script.now (map rows_of tables.now) }
    ensures text { IfOk result (λ text. IsTablesText listing.explain listing.json script.now (map rows_of tables.now) text.items) }
    ensures explains { IfErr result (IsOfLimit script.now listing.limit) }
    ensures noted { Noted O.notes (HasStates script.now) observer.old observer.new }
{
    match (listing.explain, listing.json) {
        (true, _) => explained_text(alloc, script, tables, listing, observer),
        (false, true) => Ok(pictures::write_tables(alloc, script, tables)?),
        (false, false) => counted_text(alloc, script, tables),
    }
}

/// All tables of a script.
pub(crate) fn list_text<R: Clock, O: Observer>(
    rt: &R,
    alloc: Global,
    script: &Script,
    listing: Listing,
    observer: &mut O,
) -> Result<Listed, Problem>
    ensures prints { IfOk result (λ listed. IsListText script.now listing.explain listing.json listed.text.items) }
    ensures states { IfOk result (λ listed. HasStates script.now listed.stats.states) }
    ensures explains { IfErr result (IsOfLimit script.now listing.limit) }
    ensures noted { Noted O.notes (HasStates script.now) observer.old observer.new }
{
    let start = Instant::now(rt);
    let survey = survey_script_observed(alloc, script, listing.limit, observer)?;
    let stats = Stats {
        states: survey.states,
        nanos: nanos_since(rt, start),
    };
    Ok(Listed {
        text: tables_text(alloc, script, &survey.tables, listing, observer)?,
        stats,
    })
}
