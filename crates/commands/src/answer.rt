//! A command carried out.
ghost use Rattle.std.specs.Prelude.{◌≡◌, ◌≤◌, map, None, IfErr, IfOk, OnErr, OnOk};
ghost use Rattle.std.specs.Io.KnownBytes.{Appends};
ghost use Rattle.explore.specs.Noted.{Noted};
ghost use Rattle.explore.specs.Search.{HasStates};
ghost use Rattle.commands.specs.Ends.{CountsFor, Ends, EndsBy, HasAnswered, IsAnswer};
ghost use Rattle.commands.specs.declared.problem.Problem.{Problem};
ghost use Rattle.commands.specs.{AppendsSome, given_of, PrintsOf, is_observed, Says, SaysFor, SaysOf, Explains, IsOfJob};

use crate::checking::check_text;
use crate::given::read_each;
use crate::listing::{Listing, list_text};
use crate::looking::shown_text;
use crate::problem::Problem;
use crate::progress::{Progress, is_observed};
use crate::runs::{Runs, runs_text};
use crate::told::{Console, Stats, put_stats, tell};
use command_line::Job;
use explore::{Observer, Quiet, Script};
use script_text::read_script;
use std::alloc::Global;
use std::io::{Read, Write};
use std::sync::Wait;
use std::thread::Threads;
use std::time::Clock;
use streams::{read_all, write_out};

/// The answer to a job: its text, the status, and the statistics if they are asked for.
#[derive(Drop)]
pub(crate) struct Reply {
    pub text: Vec<u8>,
    pub status: u8,
    pub stats: Option<Stats>,
}

/// Carries a job out: reads the script, and the tables that it is given, each with its name, and writes the answer to standard
/// output. Standard error gets how far a search is, if that is asked for, and then the statistics, if they are. The status is 0, or of
/// a check 3 where a table isn't the script's. Where there is no answer, one line on standard error says why: status 1, or 2 for a
/// fault of the script or a table, or 3 for a line that ran out of turns. Standard output gets nothing then, unless the writing failed.
pub fn perform<
    'a,
    R: Threads + Wait + Copy + Send + Sync + 'static + Clock,
    S: Read,
    T: Read + Drop,
    W: Write,
    E: Write,
>(
    rt: &R,
    alloc: Global,
    job: &Job,
    script: &mut S,
    tables: Vec<(&'a str, T)>,
    console: &mut Console<W, E>,
) -> u8
    ensures bound { result ≤ 3 }
    ensures ends { Ends job.now (S.remaining script.old) (map (λ t. (t.0.now, T.remaining t.1)) tables.entry.items) (W.contents console.old.out) (W.contents console.new.out) (E.contents console.old.err) (E.contents console.new.err) result }
{
    match carry_out(rt, alloc, job, script, tables, console) {
        Ok(status) => status,
        Err(problem) => tell(&problem, &mut console.err),
    }
}

/// Makes the answer, and writes it out.
fn carry_out<
    'a,
    R: Threads + Wait + Copy + Send + Sync + 'static + Clock,
    S: Read,
    T: Read + Drop,
    W: Write,
    E: Write,
>(
    rt: &R,
    alloc: Global,
    job: &Job,
    script: &mut S,
    tables: Vec<(&'a str, T)>,
    console: &mut Console<W, E>,
) -> Result<u8, Problem>
    ensures bound { IfOk result (λ status. status ≤ 3) }
    ensures answered { IfOk result (HasAnswered job.now (S.remaining script.old) (map (λ t. (t.0.now, T.remaining t.1)) tables.entry.items) (W.contents console.old.out) (W.contents console.new.out) (E.contents console.old.err) (E.contents console.new.err)) }
    ensures ends { IfErr result (EndsBy job.now (S.remaining script.old) (map (λ t. (t.0.now, T.remaining t.1)) tables.entry.items) (W.contents console.old.out) (W.contents console.new.out)) }
    ensures said { OnErr result (SaysOf (is_observed job.now) (S.remaining script.old) (E.contents console.old.err) (E.contents console.new.err)) }
{
    let answer = answer(rt, alloc, job, script, tables, &mut console.err)?;
    put_out(&answer.text, &mut console.out)?;
    put_stats(&answer.stats, &mut console.err);
    Ok(answer.status)
}

/// Writes a text out, and flushes. Where that fails, a beginning of the text went out, or all of it.
#[tactic(auto, using(crate::proofs::Printing::some_begun, crate::proofs::Printing::whole_begun))]
fn put_out<W: Write>(text: &[u8], out: &mut W) -> Result<(), Problem>
    ensures all { OnOk result (Appends (W.contents out.old) (W.contents out.new) text.now) }
    ensures begun { OnErr result (AppendsSome (W.contents out.old) (W.contents out.new) text.now) }
    ensures output { IfErr result (λ problem. problem ≡ Problem.Output) }
{
    write_out(out, text)?;
    match out.flush() {
        Ok(()) => Ok(()),
        Err(_) => Err(Problem::Output),
    }
}

/// The whole answer to a job. Meanwhile `err` is told how far its searches are, if that is asked for.
fn answer<
    'a,
    R: Threads + Wait + Copy + Send + Sync + 'static + Clock,
    S: Read,
    T: Read + Drop,
    E: Write,
>(
    rt: &R,
    alloc: Global,
    job: &Job,
    script: &mut S,
    tables: Vec<(&'a str, T)>,
    err: &mut E,
) -> Result<Reply, Problem>
    ensures bound { IfOk result (λ answer. answer.status ≤ 3) }
    ensures answer { IfOk result (λ answer. IsAnswer job.now (S.remaining script.old) (map (λ t. (t.0.now, T.remaining t.1)) tables.entry.items) answer.status answer.text.items answer.stats) }
    ensures explains { IfErr result (Explains job.now (S.remaining script.old) (map (λ t. (t.0.now, T.remaining t.1)) tables.entry.items)) }
    ensures said { SaysOf (is_observed job.now) (S.remaining script.old) (E.contents err.old) (E.contents err.new) }
{
    let text = read_all(alloc, script)?;
    let script = read_script(alloc, &text)?;
    let given = read_each(alloc, tables)?;
    answer_to(rt, alloc, job, &script, &given, err)
}

/// The answer to a job of a script and of the tables that it is given.
fn answer_to<R: Threads + Wait + Copy + Send + Sync + 'static + Clock, E: Write>(
    rt: &R,
    alloc: Global,
    job: &Job,
    script: &Script,
    given: &[(&str, Vec<u8>)],
    err: &mut E,
) -> Result<Reply, Problem>
    ensures bound { IfOk result (λ answer. answer.status ≤ 3) }
    ensures prints { IfOk result (λ answer. PrintsOf job.now script.now (map given_of given.now) answer.status answer.text.items) }
    ensures counts { IfOk result (λ answer. CountsFor job.now script.now answer.stats) }
    ensures explains { IfErr result (IsOfJob job.now script.now (map given_of given.now)) }
    ensures said { SaysFor (is_observed job.now) script.now (E.contents err.old) (E.contents err.new) }
{
    if !is_observed(job) {
        return answer_observed(rt, alloc, job, script, given, &mut Quiet);
    }
    let mut progress = Progress::new(rt, err);
    answer_told(rt, alloc, job, script, given, &mut progress)
}

/// The same, of which it is told how far its searches are.
fn answer_told<R: Threads + Wait + Copy + Send + Sync + 'static + Clock, E: Write>(
    rt: &R,
    alloc: Global,
    job: &Job,
    script: &Script,
    given: &[(&str, Vec<u8>)],
    progress: &mut Progress<'_, R, E>,
) -> Result<Reply, Problem>
    ensures bound { IfOk result (λ answer. answer.status ≤ 3) }
    ensures prints { IfOk result (λ answer. PrintsOf job.now script.now (map given_of given.now) answer.status answer.text.items) }
    ensures counts { IfOk result (λ answer. CountsFor job.now script.now answer.stats) }
    ensures explains { IfErr result (IsOfJob job.now script.now (map given_of given.now)) }
    ensures same_reference { progress.new.err.ghost_name ≡ progress.old.err.ghost_name }
    ensures said { Says script.now (E.contents progress.old.err.now) (E.contents progress.new.err.now) }
{
    answer_observed(rt, alloc, job, script, given, progress)
}

/// The same, by searches of which an observer is told.
fn answer_observed<R: Threads + Wait + Copy + Send + Sync + 'static + Clock, O: Observer>(
    rt: &R,
    alloc: Global,
    job: &Job,
    script: &Script,
    given: &[(&str, Vec<u8>)],
    observer: &mut O,
) -> Result<Reply, Problem>
    ensures bound { IfOk result (λ answer. answer.status ≤ 3) }
    ensures prints { IfOk result (λ answer. PrintsOf job.now script.now (map given_of given.now) answer.status answer.text.items) }
    ensures counts { IfOk result (λ answer. CountsFor job.now script.now answer.stats) }
    ensures explains { IfErr result (IsOfJob job.now script.now (map given_of given.now)) }
    ensures noted { Noted O.notes (HasStates script.now) observer.old observer.new }
{
    match *job {
        Job::Run {
            workers,
            turns,
            times,
            json,
        } => {
            let runs = Runs {
                workers,
                turns,
                times,
            };
            Ok(plain(runs_text(rt, alloc, script, runs, json)?))
        }
        Job::Outcomes {
            stats,
            explain,
            limit,
            json,
            ..
        } => {
            let listing = Listing {
                explain,
                limit,
                json,
            };
            let listed = list_text(rt, alloc, script, listing, observer)?;
            let stats = if stats { Some(listed.stats) } else { None };
            Ok(Reply {
                text: listed.text,
                status: 0,
                stats,
            })
        }
        Job::History { look, limit, .. } => {
            Ok(plain(shown_text(alloc, script, given, look, limit, observer)?))
        }
        Job::Check { limit, json, .. } => check_text(alloc, script, given, limit, json, observer),
    }
}

/// An answer with status 0 and without statistics.
fn plain(text: Vec<u8>) -> Reply
    ensures { (result.text ≡ text) × (result.status ≡ 0) × (result.stats ≡ None) }
{
    Reply {
        text,
        status: 0,
        stats: None,
    }
}
