//! Queries on a machine with a clock of its own, for what is printed of long searches.
use crate::printed::Printed;
use crate::runs::{Machine, queried};
use crate::words::Words;
use std::io;
use std::sync::Wait;
use std::sync::atomic::{AtomicU64, Ordering};
use std::thread::Threads;
use std::time::{Clock, Duration};

/// A machine with a clock on which each look is this many milliseconds after the last.
#[derive(Clone, Copy)]
struct Paced<R> {
    rt: R,
    pace: u64,
    looks: &'static AtomicU64,
}

impl<R: Threads> Threads for Paced<R> {}

impl<R: Wait> Wait for Paced<R> {}

impl<R> Clock for Paced<R> {
    fn monotonic(&self) -> io::Result<Duration> {
        let looks = self.looks.fetch_add(1, Ordering::SeqCst);
        Ok(Duration::from_millis(looks.saturating_mul(self.pace)))
    }

    fn since_1970(&self) -> io::Result<Duration> {
        self.monotonic()
    }
}

/// What a query answers by such a clock. The words have the milliseconds, and then its command line.
pub fn printed<R: Machine>(rt: &R, words: &mut Words<'_>, texts: &str) -> Printed {
    let (pace, line) = (words.number(), words.left());
    words.end()?;
    let alloc = rt.alloc();
    let looks = Box::leak(Box::new(alloc, AtomicU64::new(0))?);
    queried(
        &Paced {
            rt: *rt,
            pace,
            looks,
        },
        alloc,
        line,
        texts,
    )
}
