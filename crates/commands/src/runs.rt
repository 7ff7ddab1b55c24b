//! Scripts carried out once or many times.
ghost use Rattle.std.specs.Prelude.{◌≡◌, ℕ, Some, length, map, unwrap_or, IfErr, IfOk};
ghost use Rattle.script.specs.Rows.{rows_of};
ghost use Rattle.commands.specs.Status.{IsOfMemory, IsOfRun};
ghost use Rattle.commands.specs.Answers.{one_text, runs_text, AreRuns, IsRunsText};

use crate::problem::Problem;
use checks::counts_of;
use controls::Open;
use script::{Script, Table};
use script_run::run_script;
use std::alloc::Global;
use std::sync::Wait;
use std::thread::Threads;

/// With how many workers, how many tries of a line, and how often.
#[derive(Clone, Copy)]
pub(crate) struct Runs {
    pub workers: u32,
    pub turns: u32,
    pub times: Option<u32>,
}

/// The tables of this many runs.
fn tables_of<R: Threads + Wait + Copy + Send + Sync + 'static>(
    rt: &R,
    alloc: Global,
    script: &Script,
    runs: Runs,
) -> Result<Vec<Table>, Problem>
    ensures are { IfOk result (λ made. AreRuns script.now runs.workers made.items) }
    ensures many { IfOk result (λ made. length made.items ≡ unwrap_or runs.times 1) }
    ensures explains { IfErr result (IsOfRun script.now runs.workers runs.turns) }
{
    let mut made = Vec::new(alloc);
    for done in 0..runs.times.unwrap_or(1) {
        let table = run_script(rt, alloc, script, runs.workers, runs.turns, Open)?;
        made.push(table)?;
    }
    Ok(made)
}

/// The table of the first run.
fn one_text(
    alloc: Global,
    script: &Script,
    tables: &[Table],
    json: bool,
) -> Result<Vec<u8>, Problem>
    ensures text { IfOk result (λ text. text.items ≡ one_text json script.now (map rows_of tables.now)) }
    ensures memory { IfErr result IsOfMemory }
{
    match tables {
        [] => Ok(Vec::new(alloc)),
        [table, ..] => {
            if json {
                Ok(pictures::write_table(alloc, script, table)?)
            } else {
                Ok(script_text::write_table(alloc, script, table)?)
            }
        }
    }
}

/// The tables of many runs, each with how often it came.
fn many_text(
    alloc: Global,
    script: &Script,
    tables: &[Table],
    json: bool,
) -> Result<Vec<u8>, Problem>
    ensures text { IfOk result (λ text. (n : ℕ) → text.items ≡ runs_text (Some n) json script.now (map rows_of tables.now)) }
    ensures memory { IfErr result IsOfMemory }
{
    let counts = counts_of(alloc, tables)?;
    if json {
        Ok(pictures::write_counts(alloc, script, &counts)?)
    } else {
        Ok(pictures::counts_text(alloc, script, &counts, tables.len())?)
    }
}

/// The table of one run, or those of many, with how often each came.
pub(crate) fn runs_text<R: Threads + Wait + Copy + Send + Sync + 'static>(
    rt: &R,
    alloc: Global,
    script: &Script,
    runs: Runs,
    json: bool,
) -> Result<Vec<u8>, Problem>
    ensures prints { IfOk result (λ text. IsRunsText script.now runs.workers runs.times json text.items) }
    ensures explains { IfErr result (IsOfRun script.now runs.workers runs.turns) }
{
    let tables = tables_of(rt, alloc, script, runs)?;
    match runs.times {
        None => one_text(alloc, script, &tables, json),
        Some(_) => many_text(alloc, script, &tables, json),
    }
}
