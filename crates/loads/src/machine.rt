//! What the loads need of the machine.
use anyhow::Result;
use std::alloc::AllocGlobal;
use std::fs;
use std::rt::{Env, Files};
use std::sync::Wait;
use std::thread::{self, Threads};
use std::time::{Clock, Instant};

/// How often one looks in a row before other threads may run in between: for some tens of microseconds.
const LOOKS: u32 = 4_096;

/// Threads, waiting, a clock, memory, words, files and output.
pub(crate) trait Machine: Threads
    + Wait
    + Copy
    + Send
    + Sync
    + 'static
    + Clock
    + AllocGlobal
    + Env
    + Files
    + Print {}

impl<
    R: Threads + Wait + Copy + Send + Sync + 'static + Clock + AllocGlobal + Env + Files + Print,
> Machine for R {}

/// Counts one more look in vain. After `LOOKS` of them other threads may run in between.
pub(crate) fn looked(looks: u32) -> u32 {
    if looks < LOOKS {
        return looks + 1;
    }
    thread::yield_now();
    looks
}

/// How many nanoseconds have passed since then.
pub(crate) fn nanos_since<R: Clock>(rt: &R, start: Instant) -> Result<u64> {
    let nanos = start.elapsed(rt)?.as_nanos();
    Ok(u64::try_from(nanos).unwrap_or(u64::MAX))
}

/// The number of this name in a text like that of proc_pid_status(5).
fn number_in(text: &str, name: &str) -> Option<u64> {
    let line = text.lines().find(|line| line.starts_with(name))?;
    line.split_whitespace().nth(1)?.parse::<u64>().ok()
}

/// The number of this name that proc_pid_status(5) tells. None where the system tells nothing.
pub(crate) fn status<R: Machine>(rt: &R, name: &str) -> Option<u64> {
    let text: String = fs::read_to_string(rt, "/proc/self/status").ok()?;
    number_in(text.as_str(), name)
}
