//! How far a run has come, and how many of its rings wait in vain.
use crate::clock::Progress;
use std::sync::atomic::{AtomicU64, Ordering};
use std::sync::{Arc, Mutex, Wait};

/// How many rings wait in vain since the run stood at this mark.
#[derive(Drop)]
struct Waiting {
    mark: u64,
    rings: u64,
}

/// How far a run has come: its clock; how often the thread of a ring carried a line out, took completions, or ended; how many of them
/// have ended; and how many wait in vain.
#[derive(Drop)]
pub(crate) struct Pulse {
    rings: u64,
    pub clock: Arc<Progress>,
    moves: AtomicU64,
    ended: AtomicU64,
    waiting: Mutex<Waiting>,
}

impl Pulse {
    /// Of a run with this many rings, and such a clock.
    pub fn new(rings: u64, clock: Arc<Progress>) -> Pulse {
        Pulse {
            rings,
            clock,
            moves: AtomicU64::new(0),
            ended: AtomicU64::new(0),
            waiting: Mutex::new(Waiting { mark: 0, rings: 0 }),
        }
    }

    /// A thread went on.
    pub fn go_on(&self) {
        self.moves.fetch_add(1, Ordering::SeqCst);
    }

    /// A thread has come to its end. That it went on is seen before that.
    pub fn end(&self) {
        self.go_on();
        self.ended.fetch_add(1, Ordering::SeqCst);
    }

    /// The mark of a run whose workers are done with this many numbers. It grows whenever a thread, the clock or a worker continues.
    pub fn mark(&self, done: u64) -> u64 {
        let moves = self.moves.load(Ordering::SeqCst);
        done.wrapping_add(moves).wrapping_add(self.clock.behind())
    }

    /// A ring waits in vain since this mark.
    pub fn give_up<R: Wait>(&self, rt: &R, mark: u64) {
        let mut waiting = self.waiting.lock(rt);
        if waiting.mark < mark {
            waiting.mark = mark;
            waiting.rings = 0;
        }
        if waiting.mark == mark {
            waiting.rings = waiting.rings.saturating_add(1);
        }
    }

    /// Whether each ring waits in vain since this mark, or has ended.
    pub fn have_given_up<R: Wait>(&self, rt: &R, mark: u64) -> bool {
        let waiting = self.waiting.lock(rt);
        let ended = self.ended.load(Ordering::SeqCst);
        waiting.mark == mark && waiting.rings.saturating_add(ended) == self.rings
    }
}
