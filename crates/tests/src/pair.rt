//! A runtime of two rings on real threads, with both of its clients in one thread.
ghost use Rattle.std.specs.Prelude.{◌≡◌, ◌≤◌, [], IfOk, length, vec_capacity};
ghost use Rattle.runtime.specs.{AreClients};

use crate::batches::{Entry, batch_of};
use board::{Completion, Report, RingShape, Shape};
use controls::{NoClock, Turnstile};
use history::Req;
use runtime::{Client, Runtime, join_all, join_at_rest, start};
use std::alloc::{AllocError, Global};
use std::marker::Model;
use std::sync::Wait;
use std::test::Fail;
use std::thread;
use std::thread::Threads;

/// How often one looks for a completion that has to come.
const LOOKS: u32 = 100_000_000;

/// The cells of each ring, and the room of its completion ring.
const CELLS: u32 = 4;

const POSTS: u32 = 1;

/// A runtime, the clients of its rings 0 and 1, and an empty list with room for both. It is ended, never dropped.
pub(crate) struct Pair {
    alloc: Global,
    runtime: Runtime<NoClock>,
    zero: Client,
    one: Client,
    room: Vec<Client>,
}

impl Model for Pair {
    ghost use Rattle.std.specs.Prelude.{◌≡◌, ◌≤◌, [], vec_capacity};
    ghost use Rattle.work.specs.Board.{Facts};

    ghost Value = { Facts };

    ghost view = { λ p. p.runtime.board };

    ghost invariant = { λ p. (p.zero.board ≡ p.runtime.board) × (p.one.board ≡ p.runtime.board) × ((p.room.items ≡ []) × (2 ≤ vec_capacity p.room)) };
}

/// Two rings, as many pipes of 16 bytes as a board may have, and this many workers.
fn shape_of(alloc: Global, workers: u32) -> Result<Shape, AllocError>
    ensures { IfOk result (λ s. length s.rings.items ≡ 2) }
{
    let ring = RingShape {
        cells: CELLS,
        posts: Some(POSTS),
    };
    Ok(Shape {
        rings: Vec::from_elem(alloc, ring, 2)?,
        pipes: Vec::from_elem(alloc, 16u32, 64)?,
        workers,
    })
}

/// The next completion, once it is there, as text: its request, user_data and result, and the bytes of its buffer.
fn taken<R: Wait>(rt: &R, alloc: Global, client: &mut Client) -> Result<String, Fail>
    ensures { client.new.board ≡ client.old.board }
{
    for _look in 0..LOOKS {
        if let Some(completion) = client.take(rt) {
            return shown(alloc, completion);
        }
        thread::yield_now();
    }
    Err(Fail::new("no completion comes"))
}

/// The next completions of the client, which are there, each with a semicolon.
fn taken_now<R: Wait>(
    rt: &R,
    alloc: Global,
    client: &mut Client,
    count: usize,
) -> Result<String, Fail>
    ensures { client.new.board ≡ client.old.board }
{
    let mut text = String::new(alloc);
    for _look in 0..count {
        let Some(completion) = client.take(rt) else {
            return Err(Fail::new("no completion is there"));
        };
        let one = shown(alloc, completion)?;
        write!(text, "{};", one.as_str())?;
    }
    Ok(text)
}

/// A completion, as text.
fn shown(alloc: Global, completion: Completion) -> Result<String, Fail> {
    let Completion { req, cqe, buffer } = completion;
    let mut text = format!(in alloc; "{}.{} {} {}", req.ring, req.k, cqe.user_data, cqe.res)?;
    for byte in buffer.as_slice() {
        write!(text, ":{byte}")?;
    }
    Ok(text)
}

/// The lines of a report, as text: each request, its result, and whether the end cut it off.
fn told(alloc: Global, report: &Report) -> Result<String, &'static str> {
    let mut text = String::new(alloc);
    for (completion, is_cut) in report.lines() {
        let req = completion.req;
        let res = completion.cqe.res;
        if write!(text, "{}.{} {res} {is_cut};", req.ring, req.k).is_err() {
            return Err("no memory was found");
        }
    }
    Ok(text)
}

/// Submits the entries, and tells the first request.
fn submitted(alloc: Global, client: &mut Client, entries: &[Entry]) -> Result<Req, Fail>
    ensures { client.new.board ≡ client.old.board }
{
    let batch = batch_of(alloc, entries)?;
    match client.submit_batch(batch) {
        Ok(req) => Ok(req),
        Err(_) => Err(Fail::new("the batch was refused")),
    }
}

impl Pair {
    /// A started runtime, whose clock stands still.
    pub fn new<
        R: Threads + Wait + Copy + Send + 'static,
        G: Turnstile + Send + Sync + Drop + 'static,
    >(rt: R, alloc: Global, workers: u32, idle: u32, turnstile: G) -> Result<Pair, Fail> {
        let shape = shape_of(alloc, workers)?;
        let Ok((runtime, mut room)) = start(rt, alloc, &shape, idle, turnstile, NoClock) else {
            return Err(Fail::new("the runtime isn't started"));
        };
        let Some(one) = room.pop() else {
            unreachable!()
        };
        let Some(zero) = room.pop() else {
            unreachable!()
        };
        Ok(Pair {
            alloc,
            runtime,
            zero,
            one,
            room,
        })
    }

    /// Submits the entries in one batch to ring 0, or to ring 1.
    pub fn submit(&mut self, ring: u16, entries: &[Entry]) -> Result<Req, Fail> {
        if ring == 0 {
            submitted(self.alloc, &mut self.zero, entries)
        } else {
            submitted(self.alloc, &mut self.one, entries)
        }
    }

    /// Takes the next completion of ring 0, or of ring 1, once it is there.
    pub fn take<R: Wait>(&mut self, rt: &R, ring: u16) -> Result<String, Fail> {
        if ring == 0 {
            taken(rt, self.alloc, &mut self.zero)
        } else {
            taken(rt, self.alloc, &mut self.one)
        }
    }

    /// Waits for the next completion of ring 0, or of ring 1.
    pub fn wait<R: Wait>(&mut self, rt: &R, ring: u16) -> Result<String, Fail> {
        if ring == 0 {
            shown(self.alloc, self.zero.wait(rt))
        } else {
            shown(self.alloc, self.one.wait(rt))
        }
    }

    /// Submits the entries to ring 0, and waits until this many completions can be taken.
    pub fn submit_and_wait<R: Wait>(
        &mut self,
        rt: &R,
        entries: &[Entry],
        count: usize,
    ) -> Result<Req, Fail> {
        let batch = batch_of(self.alloc, entries)?;
        match self.zero.submit_and_wait(rt, batch, count) {
            Ok(req) => Ok(req),
            Err(_) => Err(Fail::new("the batch was refused")),
        }
    }

    /// Takes this many completions of ring 0, which are there.
    pub fn take_now<R: Wait>(&mut self, rt: &R, count: usize) -> Result<String, Fail> {
        taken_now(rt, self.alloc, &mut self.zero, count)
    }

    /// What it has: its runtime, and its clients in a list.
    fn parts(self) -> (Global, Runtime<NoClock>, Vec<Client>)
        ensures { AreClients result.1.board result.2.items }
    {
        let Pair {
            alloc,
            runtime,
            zero,
            one,
            mut room,
        } = self;
        room.push_reserved(one);
        room.push_reserved(zero);
        (alloc, runtime, room)
    }

    /// Ends the runtime. The lines of its report: each request, its result, and whether the end cut it off.
    pub fn end<R: Threads + Wait>(self, rt: &R) -> Result<String, &'static str> {
        let (alloc, runtime, clients) = self.parts();
        match join_all(rt, alloc, runtime, clients) {
            Ok(report) => told(alloc, &report),
            Err(unjoined) => {
                unjoined.abandon(rt);
                Err("the runtime isn't ended")
            }
        }
    }

    /// Ends the runtime once it is at rest. The lines of its report, as `end` gives them.
    pub fn end_at_rest<R: Threads + Wait>(self, rt: &R) -> Result<String, &'static str> {
        let (alloc, runtime, clients) = self.parts();
        match join_at_rest(rt, alloc, runtime, clients) {
            Ok(rested) if rested.is_at_rest => told(alloc, &rested.report),
            Ok(_) => Err("the runtime isn't at rest"),
            Err(unjoined) => {
                unjoined.abandon(rt);
                Err("the runtime isn't ended")
            }
        }
    }
}
