//! Commands over texts and over files.
use crate::printed::{Printed, Slip, said, yes};
use crate::words::Words;
use commands::{Console, Invocation, Job, Look, Problem, invocation_of, perform, serve};
use explore::ExploreError;
use limits::STATES;
use script_run::RunFault;
use script_text::{Fault, ScriptFault};
use std::alloc::{AllocError, Global};
use std::io;
use std::io::Input;
use std::rt::Files;
use std::sync::Wait;
use std::thread::Threads;
use std::time::Clock;
use streams::{InputFault, OutputFault};

/// What commands ask of a machine.
pub trait Machine: Threads
    + Wait
    + Copy
    + Send
    + Sync
    + Clock
    + Files
    + Input
    + AllocGlobal
    + 'static {}

impl<R: Threads + Wait + Copy + Send + Sync + Clock + Files + Input + AllocGlobal + 'static> Machine
    for R {}

/// How often a waiting line of a run is tried: without end to speak of.
const TURNS: u32 = 10_000_000;

/// A text with its lines' ends, for which `/` stands.
pub fn unfolded(alloc: Global, text: &str) -> Result<Vec<u8>, AllocError> {
    let mut bytes = Vec::from_slice(alloc, text.as_bytes())?;
    for byte in bytes.iter_mut() {
        if *byte == b'/' {
            *byte = b'\n';
        }
    }
    Ok(bytes)
}

/// A text in which `/` stands for its lines' ends.
pub fn folded(alloc: Global, bytes: &mut [u8]) -> Result<String, AllocError> {
    for byte in bytes.iter_mut() {
        if *byte == b'\n' {
            *byte = b'/';
        }
    }
    String::from_utf8_lossy(alloc, bytes)
}

/// A history is looked for.
pub const HISTORY: Job = Job::History {
    look: Look::Lines,
    limit: STATES,
    progress: false,
};

/// All outcomes are listed.
pub fn list(stats: bool) -> Job {
    Job::Outcomes {
        stats,
        explain: false,
        limit: STATES,
        progress: false,
        json: false,
    }
}

/// The job of a kind of case. A run has two workers, or one, or eight, or the most that there may be. It tries each waiting line
/// sixty thousand times, or once, or thirty thousand times, or without end to speak of.
fn job_of(kind: &str) -> Result<Job, Slip> {
    let (workers, turns) = match kind {
        "outcomes" => return Ok(list(false)),
        "stats" => return Ok(list(true)),
        "history" => return Ok(HISTORY),
        "stuck" => (2, 60_000),
        "once" => (2, 1),
        "drawn" => (2, 30_000),
        "run-1" => (1, TURNS),
        "run" => (2, TURNS),
        "run-8" => (8, TURNS),
        "run-64" => (64, TURNS),
        _ => return Err(Slip::BadLine),
    };
    Ok(Job::Run {
        workers,
        turns,
        times: None,
        json: false,
    })
}

/// A console that keeps what is written.
fn kept(alloc: Global) -> Console<Vec<u8>, Vec<u8>> {
    let (out, err) = (Vec::new(alloc), Vec::new(alloc));
    Console { out, err }
}

/// The status of a job, and what it writes on standard output and then on standard error.
type Answer = Result<(u8, String), Slip>;

/// What a job of this kind answers.
pub fn answered<R: Machine>(rt: &R, kind: &str, script: &str, table: &str) -> Answer {
    let (alloc, job) = (rt.alloc(), job_of(kind)?);
    let mut console = kept(alloc);
    let (script, table) = (unfolded(alloc, script)?, unfolded(alloc, table)?);
    let (mut script, mut tables) = (script.as_slice(), Vec::new(alloc));
    tables.push(("table", table.as_slice()))?;
    let status = perform(rt, alloc, &job, &mut script, tables, &mut console);
    console.out.append(&mut console.err)?;
    Ok((status, folded(alloc, &mut console.out)?))
}

/// The same of a job over files.
fn served<'a, R: Machine>(rt: &R, kind: &str, file: &'a str, names: &[&'a str]) -> Answer {
    let (alloc, job) = (rt.alloc(), job_of(kind)?);
    let mut console = kept(alloc);
    let tables = Vec::from_slice(alloc, names)?;
    let status = serve(rt, rt, &Invocation { job, file, tables }, &mut console);
    console.out.append(&mut console.err)?;
    Ok((status, folded(alloc, &mut console.out)?))
}

/// The status and what was written.
fn both(alloc: Global, answer: &(u8, String)) -> Printed {
    let (status, text) = answer;
    Ok(format!(in alloc; "{status} {text}")?)
}

/// Whether this table is among those of a list as `outcomes` writes it.
pub fn has_table(alloc: Global, listed: &str, table: &str) -> Result<bool, AllocError> {
    let listed = format!(in alloc; "//{listed}")?;
    let wanted = format!(in alloc; "//{table}/")?;
    Ok(listed.as_str().contains(wanted.as_str()))
}

/// Whether `outcomes` lists this table of the script.
pub fn is_listed<R: Machine>(rt: &R, script: &str, table: &str) -> Result<bool, Slip> {
    let (status, listed) = answered(rt, "outcomes", script, "")?;
    Ok(status == 0 && has_table(rt.alloc(), listed.as_str(), table)?)
}

/// What a command answers.
pub fn printed<R: Machine>(rt: &R, kind: &str, script: &str, table: &str) -> Printed {
    both(rt.alloc(), &answered(rt, kind, script, table)?)
}

/// What `history` answers over files.
pub fn of_files<'a, R: Machine>(rt: &R, script: &'a str, table: &'a str) -> Printed {
    both(rt.alloc(), &served(rt, "history", script, &[table])?)
}

/// Whether `outcomes` lists the table that a run prints.
pub fn prints_listed<R: Machine>(rt: &R, script: &str) -> Printed {
    let (status, table) = answered(rt, "run", script, "")?;
    yes(
        rt.alloc(),
        status == 0 && is_listed(rt, script, table.as_str())?,
    )
}

/// What run with one worker, with two and with eight says, where all three are the same, or else all three.
pub fn by_each<R: Machine>(rt: &R, script: &str) -> Printed {
    let alloc = rt.alloc();
    let one = printed(rt, "run-1", script, "")?;
    let two = printed(rt, "run", script, "")?;
    let eight = printed(rt, "run-8", script, "")?;
    if one.as_str() == two.as_str() && two.as_str() == eight.as_str() {
        Ok(two)
    } else {
        Ok(format!(in alloc; "{one} by one worker, {two} by two, {eight} by eight")?)
    }
}

/// What `outcomes` with `--stats` says, but for the number at its end: how fast the machine was.
pub fn surveyed<R: Machine>(rt: &R, script: &str) -> Printed {
    let whole = printed(rt, "stats", script, "")?;
    let (text, _) = whole.as_str().rsplit_once(' ').unwrap_or(("", ""));
    said(rt.alloc(), text)
}

/// Whether a run prints the right table of a script that writes this many letters at once to an empty pipe of this capacity, and
/// then reads as many: what fits in goes in, and comes out.
pub fn pours<R: Machine>(rt: &R, words: &mut Words<'_>) -> Printed {
    let alloc = rt.alloc();
    let (capacity, count) = (words.number::<usize>(), words.number::<usize>());
    words.end()?;
    let fits = count.min(capacity);
    let (mut letters, mut digits) = (String::new(alloc), String::new(alloc));
    for place in 0..count {
        let is_third = place % 3 == 2;
        letters.push(if is_third { 'b' } else { 'a' })?;
        if place < fits {
            digits.push_str(if is_third { "62" } else { "61" })?;
        }
    }
    let script = format!(in alloc;
        "pipe {capacity}/ring 8/on 0/write w 1 {letters}/submit/wait w/read r 0 {count}/submit/wait r"
    )?;
    let wanted = format!(in alloc; "0 w {fits}/r {fits} {digits}/")?;
    let printed = printed(rt, "run", script.as_str(), "")?;
    if printed.as_str() == wanted.as_str() {
        said(alloc, "yes")
    } else {
        Ok(printed)
    }
}

/// Whether the outcomes of an example are what stands beside it; or else whether a run of it prints one of these tables.
pub fn of_example<R: Machine>(rt: &R, kind: &str, name: &str) -> Printed {
    let alloc = rt.alloc();
    let (script, beside) = (
        format!(in alloc; "{name}.ring")?,
        format!(in alloc; "{name}.outcomes")?,
    );
    let Ok(mut listed) = std::fs::read(rt, beside.as_str()) else {
        return Err(Slip::BadLine);
    };
    let listed = folded(alloc, &mut listed)?;
    let (status, text) = served(rt, kind, script.as_str(), &[])?;
    let is_right = if kind == "run" {
        has_table(alloc, listed.as_str(), text.as_str())?
    } else {
        text.as_str() == listed.as_str()
    };
    yes(alloc, status == 0 && is_right)
}

/// What a query answers to these texts: a script, and tables in the order of their names. What it tells on standard error comes first.
fn replied<R: Threads + Wait + Copy + Send + Sync + Clock + 'static>(
    rt: &R,
    alloc: Global,
    invocation: &Invocation<'_>,
    script: &[u8],
    tables: &[Vec<u8>],
) -> Printed {
    let mut readers = Vec::new(alloc);
    for (name, table) in invocation.tables.iter().zip(tables) {
        readers.push((*name, table.as_slice()))?;
    }
    let mut console = kept(alloc);
    let (job, mut script) = (&invocation.job, script);
    let status = perform(rt, alloc, job, &mut script, readers, &mut console);
    console.err.append(&mut console.out)?;
    both(alloc, &(status, folded(alloc, &mut console.err)?))
}

/// What a query of these words answers to texts.
pub fn queried<R: Threads + Wait + Copy + Send + Sync + Clock + 'static>(
    rt: &R,
    alloc: Global,
    line: &str,
    texts: &str,
) -> Printed {
    let (script, rest) = texts.split_once(" ; ").unwrap_or((texts, ""));
    let script = unfolded(alloc, script)?;
    let mut tables = Vec::new(alloc);
    for text in rest.split(" ; ") {
        tables.push(unfolded(alloc, text)?)?;
    }
    let words: Vec<&str> = line.split(' ').collect(alloc)?;
    match invocation_of(alloc, &words) {
        Ok(invocation) => replied(rt, alloc, &invocation, &script, &tables),
        Err(_) => said(alloc, "refused"),
    }
}

/// What the program answers to these words, over files.
pub fn commanded<R: Machine>(rt: &R, line: &str) -> Printed {
    let alloc = rt.alloc();
    let words: Vec<&str> = line.split(' ').collect(alloc)?;
    let Ok(invocation) = invocation_of(alloc, &words) else {
        return said(alloc, "refused");
    };
    let mut console = kept(alloc);
    let status = serve(rt, rt, &invocation, &mut console);
    console.out.append(&mut console.err)?;
    both(alloc, &(status, folded(alloc, &mut console.out)?))
}

/// The names of the tables of a command line, `none` where it has none.
fn names_of(alloc: Global, tables: &[&str]) -> Result<String, AllocError> {
    let mut names = String::new(alloc);
    for name in tables {
        if !names.is_empty() {
            names.push(' ')?;
        }
        names.push_str(name)?;
    }
    if names.is_empty() {
        names.push_str("none")?;
    }
    Ok(names)
}

/// What a command line asks for: its job, its file and its table, or `refused`, or `help` whose text has this part.
pub fn asked(alloc: Global, line: &str, part: &str) -> Printed {
    let words: Vec<&str> = line.split(' ').collect(alloc)?;
    match invocation_of(alloc, &words) {
        Ok(invocation) => {
            let (job, file) = (invocation.job, invocation.file);
            let names = names_of(alloc, &invocation.tables)?;
            Ok(format!(in alloc; "{job:?} of {file}, table {names}")?)
        }
        Err(error) if error.use_stderr() => said(alloc, "refused"),
        Err(error) => {
            let text = format!(in alloc; "{error}")?;
            let is_right = text.as_str().contains(part);
            said(alloc, if is_right { "help" } else { "another help" })
        }
    }
}

/// The status and the line of the problem of this name, of those that no script can bring about.
pub fn problem(alloc: Global, name: &str) -> Printed {
    let problem = match name {
        "many" => Problem::from(ExploreError::TooMany),
        "search" => Problem::from(ExploreError::Memory),
        "script" => Problem::from(ScriptFault::Memory),
        "line" => Problem::from(ScriptFault::Line {
            line: 7,
            fault: Fault::BadTable,
        }),
        "stuck" => Problem::from(RunFault::Stuck(String::from_str(alloc, "a")?)),
        "run" => Problem::from(RunFault::Memory),
        "thread" => Problem::from(RunFault::Thread),
        "shared" => Problem::from(RunFault::Shared),
        "workers" => Problem::from(RunFault::Workers),
        "reading" => Problem::from(InputFault::Memory),
        "missing" => Problem::from(InputFault::Input(io::Error::from(io::ErrorKind::NotFound))),
        "full" => Problem::from(OutputFault::WriteZero),
        "writing" => Problem::from(OutputFault::Output(io::Error::from(io::ErrorKind::BrokenPipe))),
        _ => return Err(Slip::BadLine),
    };
    let status = problem.status();
    Ok(format!(in alloc; "{status} {problem}")?)
}
