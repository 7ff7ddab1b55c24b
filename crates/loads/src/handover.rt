//! Hand-overs between two threads: a number goes to the other thread through a queue, and comes back through another. Each looks for the
//! next number again and again, or blocks until it is woken.
use crate::machine::{looked, nanos_since};
use anyhow::Result;
use crossbeam_queue::ArrayQueue;
use std::alloc::{AllocError, Global};
use std::hint::spin_loop;
use std::sync::Wait;
use std::thread::{Parker, Threads, join};
use std::time::{Clock, Instant};

/// The way of the numbers to one of the threads, which blocks there or not.
#[derive(Drop)]
struct Lane {
    numbers: ArrayQueue<u64>,
    parker: Parker,
    is_blocking: bool,
}

/// Hand-overs with this many numbers on their way, there and back.
#[derive(Drop)]
pub(crate) struct HandOver {
    depth: u64,
    there: Lane,
    back: Lane,
}

impl Lane {
    /// An empty lane.
    fn new(alloc: Global, depth: u64, is_blocking: bool) -> Result<Lane, AllocError> {
        Ok(Lane {
            numbers: ArrayQueue::new(alloc, depth.clamp(1, 1_024) as usize)?,
            parker: Parker::new(),
            is_blocking,
        })
    }

    /// Hands a number over.
    fn put<R: Wait>(&self, rt: &R, number: u64) {
        self.numbers.force_push(rt, number);
        if self.is_blocking {
            self.parker.unpark();
        }
    }

    /// Takes the next number, once there is one.
    fn next<R: Wait>(&self, rt: &R) -> u64 {
        let mut looks = 0;
        for _ in rt.forever() {
            if let Some(number) = self.numbers.pop(rt) {
                return number;
            }
            if self.is_blocking {
                self.parker.park(rt);
            } else {
                spin_loop();
                looks = looked(looks);
            }
        }
        unreachable!()
    }
}

impl HandOver {
    /// Those of threads that block, or don't.
    pub fn new(alloc: Global, depth: u64, is_blocking: bool) -> Result<HandOver, AllocError> {
        let there = Lane::new(alloc, depth, is_blocking)?;
        let back = Lane::new(alloc, depth, is_blocking)?;
        Ok(HandOver { depth, there, back })
    }

    /// Hands this many numbers out, and keeps the depth of them on their way, until all are back.
    fn hand_out<R: Wait>(&self, rt: &R, count: u64) {
        for number in 0..count.saturating_add(self.depth) {
            if self.depth <= number {
                self.back.next(rt);
            }
            if number < count {
                self.there.put(rt, number);
            }
        }
    }

    /// Hands this many numbers back, in the order in which they come.
    fn hand_back<R: Wait>(&self, rt: &R, count: u64) {
        for _number in 0..count {
            self.back.put(rt, self.there.next(rt));
        }
    }

    /// This many hand-overs and back. How many nanoseconds that took.
    pub fn round<R: Threads + Wait + Sync + Clock>(&self, rt: &R, units: u64) -> Result<u64> {
        let start = Instant::now(rt)?;
        join(
            rt,
            || self.hand_out(rt, units),
            || self.hand_back(rt, units),
        );
        nanos_since(rt, start)
    }
}
