//! Commands over streams that move a few bytes at a call, or break.
ghost use Rattle.std.specs.Prelude.{◌≤◌, IfOk};

use crate::printed::{Printed, Slip};
use crate::runs::{HISTORY, Machine, folded, list, unfolded};
use crate::words::Words;
use commands::{Console, perform};
use std::alloc::{AllocError, Global};
use std::io;
use std::io::{ErrorKind, Read, Write};

/// The script whose histories are looked for.
const SCRIPT: &str = "ring 4/on 0/nop a/submit/wait a/";

/// What a stream does at one of its calls.
#[derive(Clone, Copy)]
enum Break {
    /// The call fails.
    Fails,
    /// The call moves no byte.
    Nothing,
    /// A signal interrupts the call.
    Interrupted,
    /// No call breaks, but the stream can't be flushed.
    Unflushed,
}

/// How a stream moves bytes: at most `most` at a call. The call of this number breaks, the first one being 1.
#[derive(Clone, Copy)]
struct Manner {
    most: usize,
    call: u32,
    how: Break,
}

/// The manner of a stream that doesn't break.
const WHOLE: Manner = Manner {
    most: usize::MAX,
    call: 0,
    how: Break::Nothing,
};

impl Manner {
    /// The manner that words tell: MOST CALL HOW.
    fn of(words: &mut Words<'_>) -> Result<Manner, Slip> {
        let (most, call) = (words.number(), words.number());
        let how = match words.word() {
            "fails" => Break::Fails,
            "nothing" => Break::Nothing,
            "interrupted" => Break::Interrupted,
            "unflushed" => Break::Unflushed,
            _ => words.bad(Break::Fails),
        };
        words.end()?;
        Ok(Manner { most, call, how })
    }

    /// How many bytes the call of this number moves, of those that there are.
    fn count(&self, call: u32, there: usize) -> io::Result<usize>
        ensures { IfOk result (λ count. count ≤ there) }
    {
        let count = there.min(self.most);
        if call != self.call {
            return Ok(count);
        }
        match self.how {
            Break::Fails => Err(io::Error::from(ErrorKind::BrokenPipe)),
            Break::Nothing => Ok(0),
            Break::Interrupted => Err(io::Error::from(ErrorKind::Interrupted)),
            Break::Unflushed => Ok(count),
        }
    }
}

/// A writer that keeps what it took.
#[derive(Drop)]
struct Sink {
    manner: Manner,
    calls: u32,
    taken: Vec<u8>,
}

impl Write for Sink {
    fn write(&mut self, buf: &[u8]) -> io::Result<usize> {
        self.calls = self.calls.saturating_add(1);
        let count = self.manner.count(self.calls, buf.len())?;
        self.taken.extend_from_slice(&buf[..count])?;
        Ok(count)
    }

    fn flush(&mut self) -> io::Result<()> {
        match self.manner.how {
            Break::Unflushed => Err(io::Error::from(ErrorKind::BrokenPipe)),
            _ => Ok(()),
        }
    }
}

/// A reader of a text.
#[derive(Drop)]
struct Source {
    manner: Manner,
    calls: u32,
    text: Vec<u8>,
    given: usize,
}

impl Source {
    /// A reader of a text.
    fn of(alloc: Global, text: &str, manner: Manner) -> Result<Source, AllocError> {
        Ok(Source {
            manner,
            calls: 0,
            text: unfolded(alloc, text)?,
            given: 0,
        })
    }
}

impl Read for Source {
    fn read(&mut self, buf: &mut [u8]) -> io::Result<usize> {
        self.calls = self.calls.saturating_add(1);
        let rest = &self.text[self.given.min(self.text.len())..];
        let there = rest.len().min(buf.len());
        let count = self.manner.count(self.calls, there)?;
        buf[..count].copy_from_slice(&rest[..count]);
        self.given = self.given.saturating_add(count);
        Ok(count)
    }
}

/// The status of a command one of whose streams breaks, what it wrote, and how many calls that stream got: the writer of `outcomes`,
/// the reader of its script, or the reader of the table of a history.
pub fn printed<R: Machine>(rt: &R, kind: &str, text: &str, how: &str) -> Printed {
    let alloc = rt.alloc();
    let manner = Manner::of(&mut Words::of(alloc, how))?;
    let (writes, reads, finds) = match kind {
        "writes" => (manner, WHOLE, WHOLE),
        "reads" => (WHOLE, manner, WHOLE),
        _ => (WHOLE, WHOLE, manner),
    };
    let (job, script, table) = if kind == "finds" {
        (HISTORY, SCRIPT, text)
    } else {
        (list(false), text, "")
    };
    let mut script = Source::of(alloc, script, reads)?;
    let mut table = Source::of(alloc, table, finds)?;
    let out = Sink {
        manner: writes,
        calls: 0,
        taken: Vec::new(alloc),
    };
    let err = Vec::new(alloc);
    let mut console = Console { out, err };
    let mut tables = Vec::new(alloc);
    tables.push(("table", &mut table))?;
    let status = perform(rt, alloc, &job, &mut script, tables, &mut console);
    let Console { mut out, mut err } = console;
    let calls = match kind {
        "writes" => out.calls,
        "reads" => script.calls,
        _ => table.calls,
    };
    let (out, err) = (folded(alloc, &mut out.taken)?, folded(alloc, &mut err)?);
    Ok(format!(in alloc; "{status} {out}; {err}; {calls} calls")?)
}
