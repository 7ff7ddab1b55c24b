//! Standard output and standard error; and what goes to standard error, part by part through `write_out`, which needs no memory. Whether it went out is reported to no one.
ghost use Rattle.std.specs.Prelude.{◌≡◌, ◌*◌, ◌/◌, [], min, max, OnOk, OnErr};
ghost use Rattle.std.specs.Io.KnownBytes.{Appends};
ghost use Rattle.commands.specs.{AppendsSome, status_of, line_of, number_line, states_line, stats_text, text_of, PutsCounts};

use crate::problem::Problem;
use itoa::Buffer;
use std::io::Write;
use streams::{OutputFault, write_out};

/// Standard output and standard error, or what stands for them.
#[derive(Drop)]
pub struct Console<W, E> {
    pub out: W,
    pub err: E,
}

/// How many states a search met, and in how many nanoseconds.
#[derive(Clone, Copy)]
pub struct Stats {
    pub states: usize,
    pub nanos: u64,
}

/// A line of a text, in four parts, of which some are empty. Its line feed comes after them.
#[derive(Clone, Copy)]
pub struct Line<'a> {
    pub lead: &'a str,
    pub name: &'a str,
    pub mark: &'a str,
    pub words: &'a str,
}

impl<'a> Line<'a> {
    /// A line of two parts.
    pub fn of(lead: &'a str, name: &'a str) -> Line<'a>
        ensures { (result.lead.now ≡ lead.now) × (result.name.now ≡ name.now) × (result.mark.now ≡ []) × (result.words.now ≡ []) }
    {
        Line {
            lead,
            name,
            mark: "",
            words: "",
        }
    }
}

/// Says on `err` why there is no answer. What is told is the status.
pub fn tell<E: Write>(problem: &Problem, err: &mut E) -> u8
    ensures status { result ≡ status_of problem.now }
    ensures line { AppendsSome (E.contents err.old) (E.contents err.new) (line_of problem.now) }
{
    let mut digits = Buffer::new();
    let line = problem.line(&mut digits);
    let _ = put_line(&line, err);
    let _ = err.flush();
    problem.status()
}

/// Writes to `err` how many states were met, and how many in a second; nothing where it isn't told.
pub fn put_stats<E: Write>(stats: &Option<Stats>, err: &mut E)
    ensures { PutsCounts stats.now (E.contents err.old) (E.contents err.new) }
{
    let Some(stats) = stats else {
        return;
    };
    let _ = put_counts(stats, err);
    let _ = err.flush();
}

/// Writes to `err` how many states a search has met so far.
pub fn put_states<E: Write>(states: usize, err: &mut E)
    ensures { AppendsSome (E.contents err.old) (E.contents err.new) (states_line states) }
{
    let mut digits = Buffer::new();
    let _ = put_number("states so far ", states as u64, &mut digits, err);
    let _ = err.flush();
}

/// Writes the two lines of the statistics.
fn put_counts<E: Write>(stats: &Stats, err: &mut E) -> Result<(), OutputFault>
    ensures all { OnOk result (Appends (E.contents err.old) (E.contents err.new) (stats_text stats.now.states stats.now.nanos)) }
    ensures begun { OnErr result (AppendsSome (E.contents err.old) (E.contents err.new) (stats_text stats.now.states stats.now.nanos)) }
{
    let mut digits = Buffer::new();
    put_number("states ", stats.states as u64, &mut digits, err)?;
    let rate = rate_of(stats.states as u64, stats.nanos);
    put_number("states a second ", rate, &mut digits, err)
}

/// Writes a line of some words and a number.
fn put_number<W: Write>(
    lead: &str,
    number: u64,
    digits: &mut Buffer,
    out: &mut W,
) -> Result<(), OutputFault>
    ensures all { OnOk result (Appends (W.contents out.old) (W.contents out.new) (number_line lead.now number)) }
    ensures begun { OnErr result (AppendsSome (W.contents out.old) (W.contents out.new) (number_line lead.now number)) }
{
    let line = Line::of(lead, digits.format(number));
    put_line(&line, out)
}

/// Writes a line out, up to the first part that can't be written.
fn put_line<W: Write>(line: &Line<'_>, out: &mut W) -> Result<(), OutputFault>
    ensures all { OnOk result (Appends (W.contents out.old) (W.contents out.new) (text_of line.now)) }
    ensures begun { OnErr result (AppendsSome (W.contents out.old) (W.contents out.new) (text_of line.now)) }
{
    write_out(out, line.lead.as_bytes())?;
    write_out(out, line.name.as_bytes())?;
    write_out(out, line.mark.as_bytes())?;
    write_out(out, line.words.as_bytes())?;
    write_out(out, b"\n")
}

/// How many in a second, where there were this many in these nanoseconds. No time counts as one nanosecond.
pub fn rate_of(count: u64, nanos: u64) -> u64
    ensures { result ≡ min (count * 1000000000) 18446744073709551615 / max nanos 1 }
{
    count.saturating_mul(1_000_000_000) / nanos.max(1)
}
