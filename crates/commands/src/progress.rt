//! How far a search is, told on standard error.
ghost use Rattle.std.specs.Prelude.{◌≡◌};
ghost use Rattle.commands.specs.{AppendsSome, states_line};
ghost use Rattle.commands.specs.Progress.{is_observed};

use crate::told::put_states;
use command_line::Job;
use explore::Observer;
use std::io;
use std::io::Write;
use std::time::{Clock, Instant};

/// After this many notes the time is asked for.
const NOTES: u32 = 1024;

/// The first line comes after this many nanoseconds.
const FIRST: u64 = 2_000_000_000;

/// And each further one after this many more.
const NEXT: u64 = 1_000_000_000;

/// Whether it is to be told how far its searches are.
pub(crate) fn is_observed(job: &Job) -> bool
    ensures { result ≡ is_observed job.now }
{
    match *job {
        Job::Run { .. } => false,
        Job::Outcomes { progress, .. } => progress,
        Job::History { progress, .. } => progress,
        Job::Check { progress, .. } => progress,
    }
}

/// The nanoseconds since a time, 0 where the clock can't tell.
pub(crate) fn nanos_since<R: Clock>(rt: &R, start: io::Result<Instant>) -> u64 {
    match start {
        Ok(start) => match start.elapsed(rt) {
            Ok(time) => u64::try_from(time.as_nanos()).unwrap_or(u64::MAX),
            Err(_) => 0,
        },
        Err(_) => 0,
    }
}

/// When the next line is due.
#[derive(Drop)]
struct Pace {
    start: io::Result<Instant>,
    /// The notes until the time is asked for.
    left: u32,
    /// The nanoseconds from the start to the line.
    due: u64,
}

impl Pace {
    /// A search begins.
    fn new<R: Clock>(rt: &R) -> Pace {
        Pace {
            start: Instant::now(rt),
            left: NOTES,
            due: FIRST,
        }
    }

    /// A note has come. Whether a line is due.
    fn is_due<R: Clock>(&mut self, rt: &R) -> bool {
        if self.left > 0 {
            self.left -= 1;
            return false;
        }
        self.left = NOTES;
        let now = nanos_since(rt, self.start);
        if now < self.due {
            return false;
        }
        self.due = now.saturating_add(NEXT);
        true
    }
}

/// Says on `err` how many states a search has met, where it takes longer than two seconds: then, and after each further second.
/// Where the clock can't be read it says nothing.
#[derive(Drop)]
pub struct Progress<'a, R, E> {
    rt: &'a R,
    pub err: &'a mut E,
    pace: Pace,
}

impl<'a, R: Clock, E: Write> Progress<'a, R, E> {
    /// A search begins.
    pub fn new(rt: &'a R, err: &'a mut E) -> Progress<'a, R, E>
        ensures same_reference { result.err.ghost_name ≡ err.entry.ghost_name }
        ensures same { result.err.now ≡ err.old }
    {
        let pace = Pace::new(rt);
        Progress { rt, err, pace }
    }
}

impl<R: Clock, E: Write> Observer for Progress<'_, R, E> {
    ghost notes = { λ old states new. (new.err.ghost_name ≡ old.err.ghost_name) × AppendsSome (E.contents old.err.now) (E.contents new.err.now) (states_line states) };

    fn note(&mut self, states: usize) {
        if self.pace.is_due(self.rt) {
            put_states(states, self.err);
        }
    }
}
