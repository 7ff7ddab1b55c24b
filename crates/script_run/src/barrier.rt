//! Whether the threads of all rings have begun, and whether all are to stop.
use crate::clock::Progress;
use crate::pulse::Pulse;
use std::sync::atomic::{AtomicBool, AtomicU64, Ordering};
use std::sync::{Arc, Wait};
use std::thread;

/// How many rings a run has, the threads of how many have begun, whether all are to stop, and how far the run has come.
#[derive(Drop)]
pub(crate) struct Barrier {
    rings: u64,
    begun: AtomicU64,
    is_stopped: AtomicBool,
    pub pulse: Pulse,
}

impl Barrier {
    /// Of a run with this many rings, and such a clock.
    pub fn new(rings: u64, clock: Arc<Progress>) -> Barrier {
        Barrier {
            rings,
            begun: AtomicU64::new(0),
            is_stopped: AtomicBool::new(false),
            pulse: Pulse::new(rings, clock),
        }
    }

    /// Tells the threads of all rings to stop. Those that haven't passed the barrier never do.
    pub fn stop(&self) {
        self.is_stopped.store(true, Ordering::SeqCst);
    }

    /// Whether all are to stop.
    pub fn is_stopped(&self) -> bool {
        self.is_stopped.load(Ordering::SeqCst)
    }

    /// A thread has begun, and waits until all have. False where they are told to stop before that.
    pub fn wait<R: Wait>(&self, rt: &R) -> bool {
        if self.is_stopped() {
            return false;
        }
        self.begun.fetch_add(1, Ordering::SeqCst);
        for _ in rt.forever() {
            if self.begun.load(Ordering::SeqCst) == self.rings {
                return true;
            }
            if self.is_stopped() {
                return false;
            }
            thread::yield_now();
        }
        unreachable!()
    }
}
