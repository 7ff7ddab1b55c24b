//! Runtimes, from their start to their end.
ghost use Rattle.runtime.specs.Clients.{AreClients};

use crate::boards::{add, shape_of, show_report};
use crate::lines::{AGAIN, Handed, Lines, Shown};
use board::Shape;
use controls::{NoClock, Open};
use prep::read;
use runtime::{Client, JoinError, Runtime, Unjoined, join_all, start};
use std::alloc::Global;
use std::sync::Wait;
use std::thread::Threads;

/// After how many idle turns in a row the poller sleeps.
const IDLE: u32 = 64;

/// A runtime, and its clients.
#[derive(Drop)]
struct Running {
    runtime: Runtime<NoClock>,
    clients: Vec<Client>,
    ghost own: { AreClients runtime.board clients.items },
}

impl<R: Threads + Wait> Handed<R> for Running {
    fn hand(self, rt: &R, alloc: Global, gave: &mut Shown) -> Option<Running> {
        match join_all(rt, alloc, self.runtime, self.clients) {
            Ok(report) => {
                show_report(&report, gave);
                None
            }
            Err(
                Unjoined {
                    error: JoinError::Memory,
                    runtime,
                    clients,
                },
            ) => {
                gave.refused(&JoinError::Memory);
                Some(Running { runtime, clients })
            }
            Err(_) => None,
        }
    }

    fn show_parts(&self, shown: &mut Shown) {
        shown.count(" clients ", self.clients.len() as u64);
    }
}

/// A runtime of this shape, unless it is refused memory or a thread.
fn started<R: Threads + Wait + Copy + Send + 'static>(
    rt: R,
    alloc: Global,
    shape: &Shape,
    gave: &mut Shown,
) -> Option<Running> {
    match start(rt, alloc, shape, IDLE, Open, NoClock) {
        Ok((runtime, clients)) => Some(Running { runtime, clients }),
        Err(error) => {
            gave.refused(&error);
            None
        }
    }
}

/// Submits a READ that nothing answers, by the client of ring 0.
fn submit(alloc: Global, running: &mut Running) {
    let mut batch = Vec::new(alloc);
    add(alloc, &mut batch, read(0, 4, 0), 4);
    if let Some(client) = running.clients.get_mut(0) {
        let _ = client.submit_batch(batch);
    }
}

/// A runtime is started, once more where it was refused memory or a thread.
fn try_start<R: Threads + Wait + Copy + Send + 'static>(
    rt: R,
    lines: &mut Lines,
    shape: &Shape,
) -> Option<Running> {
    lines.mark();
    let mut running = started(rt, lines.alloc, shape, &mut lines.gave);
    lines.mark();
    let went = if running.is_some() { "" } else { AGAIN };
    if running.is_none() {
        running = started(rt, lines.alloc, shape, &mut lines.gave);
    }
    if let Some(running) = &running {
        lines.gave.count(" clients ", running.clients.len() as u64);
    }
    lines.add("start", went);
    running
}

/// A runtime with this many workers is started, and ended with a request that has no reply.
fn try_workers<R: Threads + Wait + Copy + Send + 'static>(rt: &R, lines: &mut Lines, workers: u32) {
    if let Some(shape) = shape_of(lines.alloc, 2, 4, workers) {
        let mut running = try_start(*rt, lines, &shape);
        if let Some(running) = &mut running {
            submit(lines.alloc, running);
        }
        lines.try_call(rt, "join_all", &mut running);
        drop(running);
    }
}

/// The poller's thread serves one of two workers; each of three has a thread.
pub(crate) fn try_threads<R: Threads + Wait + Copy + Send + 'static>(rt: &R, lines: &mut Lines) {
    try_workers(rt, lines, 2);
    try_workers(rt, lines, 3);
}
