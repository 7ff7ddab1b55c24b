//! A turnstile that holds requests at points until others have come to theirs.
use crate::turnstile::{Point, Turnstile};
use history::Req;
use std::sync::atomic::{AtomicBool, Ordering};
use std::thread;

/// How many turns a request is held at most.
pub const TURNS: u32 = 1_000_000;

/// One request is held at a point until another has come to its point, for at most `TURNS` turns.
#[derive(Drop)]
pub struct Hold {
    held: (Point, Req),
    until: (Point, Req),
    has_come: AtomicBool,
}

impl Hold {
    /// Holds the first until the second has come.
    pub fn new(held: (Point, Req), until: (Point, Req)) -> Hold {
        Hold {
            held,
            until,
            has_come: AtomicBool::new(false),
        }
    }

    /// Notes it where it is the one that is waited for.
    fn note(&self, place: (Point, Req)) {
        if self.until == place {
            self.has_come.store(true, Ordering::SeqCst);
        }
    }

    /// Waits where it is the one that is held.
    fn wait(&self, place: (Point, Req)) {
        if self.held != place {
            return;
        }
        for _turn in 0..TURNS {
            if self.has_come.load(Ordering::SeqCst) {
                break;
            }
            thread::yield_now();
        }
    }
}

/// Several holds.
#[derive(Drop)]
pub struct Holds {
    pub holds: Vec<Hold>,
}

impl Turnstile for Holds {
    fn pass(&self, at: Point, r: Req) {
        for hold in self.holds.as_slice() {
            hold.note((at, r));
        }
        for hold in self.holds.as_slice() {
            hold.wait((at, r));
        }
    }
}
