//! What the words of the command line ask for.
ghost use Rattle.std.specs.Prelude.{◌≡◌, ◌≤◌, IfOk, IfSome, OnOk, map};
ghost use Rattle.clap.specs.Words.{fault_of, found_of, rows_of, FailsBy};
ghost use Rattle.command_line.specs.{ringrun, AreTables, Asks, IsAsked, IsCheckFor, IsHistoryFor, IsJobFor, IsNumber, IsOutcomesFor, IsRunFor, IsTimes, look_by, IsWithin};

use crate::command::command;
use clap::{ArgMatches, Error};
use limits::WORKERS;
use std::alloc::{AllocError, Global};

/// The most runs of one `run`.
pub(crate) const TIMES: u32 = 10_000;

/// How a history is shown.
#[derive(Clone, Copy, Debug)]
pub enum Look {
    /// One event a line.
    Lines,
    /// A table with a column for each of those who take steps.
    Lanes,
    /// A sequence diagram in the language of Mermaid.
    Mermaid,
    /// A JSON value.
    Json,
}

/// What is asked for. With `json` the answer is one JSON value. A search meets at most `limit` states; with `progress` it is told
/// meanwhile how many it has met.
#[derive(Clone, Copy, Debug)]
pub enum Job {
    /// A script is carried out on a board with this many workers, once or this many times. Each waiting line is tried at most
    /// `turns` times.
    Run {
        workers: u32,
        turns: u32,
        times: Option<u32>,
        json: bool,
    },
    /// All tables of a script are listed; with `explain` each with a history. With `stats` it is also told how many states were
    /// met, and how many in a second.
    Outcomes {
        stats: bool,
        explain: bool,
        limit: u32,
        progress: bool,
        json: bool,
    },
    /// A history of a script with a given table is printed.
    History {
        look: Look,
        limit: u32,
        progress: bool,
    },
    /// It is told whether each given table is one of the script's.
    Check {
        limit: u32,
        progress: bool,
        json: bool,
    },
}

/// What is asked for, and of which files. A script `-` is standard input. A history has one table, a check one or more, always
/// files; other jobs have none.
#[derive(Drop)]
pub struct Invocation<'a> {
    pub job: Job,
    pub file: &'a str,
    pub tables: Vec<&'a str>,
}

/// The invocation that the words of a command line make, the program's name first. The error is clap's text: help, the version,
/// or what is wrong with the words.
pub fn invocation_of<'a>(alloc: Global, words: &'a [&'a str]) -> Result<Invocation<'a>, Error>
    ensures within { IfOk result (λ invocation. IsWithin invocation.job) }
    ensures asks { IfOk result (IsAsked (map (λ s. s.now) words.entry.now)) }
    ensures kinds { FailsBy (fault_of ringrun (map (λ s. s.now) words.entry.now)) result }
{
    let matches = command(alloc)?.try_get_matches_from(words)?;
    let Some((name, given)) = matches.subcommand() else {
        unreachable!()
    };
    Ok(asked(alloc, name, given)?)
}

/// The invocation that the words of the command of this name ask for.
fn asked<'a>(
    alloc: Global,
    name: &str,
    given: &ArgMatches<'a>,
) -> Result<Invocation<'a>, AllocError>
    ensures within { IfOk result (λ invocation. IsWithin invocation.job) }
    ensures asks { IfOk result (Asks name.now (rows_of (found_of given.now))) }
{
    Ok(Invocation {
        job: job_of(name, given),
        file: given.get_str("FILE").unwrap_or("-"),
        tables: tables_of(alloc, given)?,
    })
}

/// The names of the tables.
fn tables_of<'a>(alloc: Global, given: &ArgMatches<'a>) -> Result<Vec<&'a str>, AllocError>
    ensures { IfOk result (λ tables. AreTables (rows_of (found_of given.now)) (map (λ s. s.now) tables.items)) }
{
    match given.get_raw("TABLE") {
        Some(names) => Vec::from_slice(alloc, names),
        None => Ok(Vec::new(alloc)),
    }
}

/// The job that the words after a command's name ask for.
fn job_of(name: &str, given: &ArgMatches<'_>) -> Job
    ensures within { IsWithin result }
    ensures job { IsJobFor name.now (rows_of (found_of given.now)) result }
{
    match name {
        "outcomes" => outcomes_of(given),
        "history" => history_of(given),
        "check" => check_of(given),
        _ => run_of(given),
    }
}

/// The run that is asked for.
fn run_of(given: &ArgMatches<'_>) -> Job
    ensures within { IsWithin result }
    ensures job { IsRunFor (rows_of (found_of given.now)) result }
{
    Job::Run {
        workers: number_of(given, "workers", WORKERS),
        turns: number_of(given, "turns", u32::MAX),
        times: times_of(given),
        json: given.get_flag("json"),
    }
}

/// The list of outcomes that is asked for.
fn outcomes_of(given: &ArgMatches<'_>) -> Job
    ensures within { IsWithin result }
    ensures job { IsOutcomesFor (rows_of (found_of given.now)) result }
{
    Job::Outcomes {
        stats: given.get_flag("stats"),
        explain: given.get_flag("explain"),
        limit: number_of(given, "limit", u32::MAX),
        progress: given.get_flag("progress"),
        json: given.get_flag("json"),
    }
}

/// The history that is asked for. Where several looks are given, `--json` counts before `--mermaid`, and that before `--lanes`.
fn history_of(given: &ArgMatches<'_>) -> Job
    ensures within { IsWithin result }
    ensures job { IsHistoryFor (rows_of (found_of given.now)) result }
{
    let (json, mermaid, lanes) = (
        given.get_flag("json"),
        given.get_flag("mermaid"),
        given.get_flag("lanes"),
    );
    Job::History {
        look: look_by(json, mermaid, lanes),
        limit: number_of(given, "limit", u32::MAX),
        progress: given.get_flag("progress"),
    }
}

/// The look that these flags ask for.
fn look_by(json: bool, mermaid: bool, lanes: bool) -> Look
    ensures { result ≡ look_by json mermaid lanes }
{
    match (json, mermaid, lanes) {
        (true, _, _) => Look::Json,
        (false, true, _) => Look::Mermaid,
        (false, false, true) => Look::Lanes,
        (false, false, false) => Look::Lines,
    }
}

/// The check that is asked for.
fn check_of(given: &ArgMatches<'_>) -> Job
    ensures within { IsWithin result }
    ensures job { IsCheckFor (rows_of (found_of given.now)) result }
{
    Job::Check {
        limit: number_of(given, "limit", u32::MAX),
        progress: given.get_flag("progress"),
        json: given.get_flag("json"),
    }
}

/// How many times the script is to be carried out, if that is given.
fn times_of(given: &ArgMatches<'_>) -> Option<u32>
    ensures within { IfSome result (λ n. 1 ≤ n) }
    ensures times { IsTimes (rows_of (found_of given.now)) result }
{
    match given.get_one::<u32>("times") {
        Some(number) => Some(number.max(1).min(TIMES)),
        None => None,
    }
}

/// The number given for a word, from 1 to `most`. The parser of the word gives the usual one where there is none, and has
/// refused all others. It is tested once more, so that the limits are a clause here (`IsWithin`).
fn number_of(given: &ArgMatches<'_>, word: &str, most: u32) -> u32
    requires { 1 ≤ most }
    ensures within { (1 ≤ result) × (result ≤ most) }
    ensures number { IsNumber word.now (rows_of (found_of given.now)) most result }
{
    match given.get_one::<u32>(word) {
        Some(number) => number.max(1).min(most),
        None => 1,
    }
}
