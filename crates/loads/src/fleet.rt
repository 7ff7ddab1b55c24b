//! A runtime of two rings, with one or two clients at work.
ghost use Rattle.std.specs.Prelude.{◌≡◌, None, IfOk, length};
ghost use Rattle.runtime.specs.{AreClients};

use crate::client::Driver;
use crate::load::{Counts, Load};
use crate::machine::{Machine, nanos_since};
use crate::pipes::{CAPACITY, PIPES};
use crate::setup::{Kind, Setup};
use anyhow::{Result, bail};
use board::{Phase, Report, RingShape, Shape};
use controls::{Clock as Controls, Open};
use history::Req;
use runtime::{Client, Runtime, join_all, start};
use std::alloc::{AllocError, Global};
use std::marker::Model;
use std::sync::Wait;
use std::thread::{Threads, join_mut};
use std::time::{Clock, Duration, Instant};

/// A clock that advances by one tick every this many turns of the poller, or with 0 stands still.
#[derive(Clone, Copy)]
pub(crate) struct Ticking {
    every: u32,
    turns: u32,
}

impl Controls for Ticking {
    ghost asked = { λ _. None };

    ghost stays = { λ _ _ _ _ _ _ _. tt };

    fn ask(&self) -> Option<Req> {
        None
    }

    fn advance(&mut self, now: u32, _phase: Option<Phase>) -> Option<u32> {
        self.turns = self.turns.wrapping_add(1);
        let is_time = self.turns.checked_rem(self.every) == Some(0);
        if is_time { now.checked_add(1) } else { None }
    }
}

/// A runtime, the clients of ring 0 and ring 1 with their loads, and an empty list with room for both. Both are at work, or only the
/// first. It is ended, never dropped: its threads would go on.
pub(crate) struct Fleet<L: Load> {
    runtime: Runtime<Ticking>,
    zero: Driver<L>,
    one: Driver<L>,
    room: Vec<Client>,
    are_two: bool,
}

impl<L: Load> Model for Fleet<L> {
    ghost use Rattle.std.specs.Prelude.{◌≡◌, ◌≤◌, [], vec_capacity};
    ghost use Rattle.work.specs.Board.{Facts};

    ghost Value = { Facts };

    ghost view = { λ f. f.runtime.board };

    ghost invariant = { λ f. (f.zero.client.board ≡ f.runtime.board) × (f.one.client.board ≡ f.runtime.board) × ((f.room.items ≡ []) × (2 ≤ vec_capacity f.room)) };
}

/// The board of a setup.
fn shape_of(alloc: Global, setup: &Setup) -> Result<Shape, AllocError>
    ensures { IfOk result (λ s. length s.rings.items ≡ 2) }
{
    let (cells, posts) = (setup.cells, setup.posts);
    let (pipes, room) = match setup.kind {
        Kind::Mixed { .. } => (PIPES, CAPACITY),
        _ => (64, 4096),
    };
    Ok(Shape {
        rings: Vec::from_elem(alloc, RingShape { cells, posts }, 2)?,
        pipes: Vec::from_elem(alloc, room, pipes as usize)?,
        workers: setup.workers,
    })
}

/// Ends the runtime of these clients.
fn join<R: Machine>(rt: &R, runtime: Runtime<Ticking>, clients: Vec<Client>) -> Result<Report>
    requires { AreClients runtime.board clients.items }
{
    match join_all(rt, rt.alloc(), runtime, clients) {
        Ok(report) => Ok(report),
        Err(unjoined) => Err(unjoined.abandon(rt).into()),
    }
}

/// Both clients at work, each in a thread; or one after the other, where that of ring 1 has only READs that are left to wait.
fn serve_all<R: Threads + Wait + Sync + Clock, L: Load + Send>(
    rt: &R,
    zero: &mut Driver<L>,
    one: &mut Driver<L>,
    count: u64,
    are_two: bool,
) -> Result<()>
    ensures zero { zero.new.client.board ≡ zero.old.client.board }
    ensures one { one.new.client.board ≡ one.old.client.board }
{
    if !are_two {
        one.serve(rt, count)?;
        return zero.serve(rt, count);
    }
    let (zero_end, one_end) = join_mut(
        rt,
        &mut || zero.serve(rt, count),
        &mut || one.serve(rt, count),
    );
    zero_end?;
    one_end
}

/// Hands what the report says of each request to the load of its ring.
fn note_report<L: Load>(first: &mut L, second: &mut L, report: &Report) -> Result<()> {
    for (completion, is_cut) in report.lines() {
        match completion.req.ring {
            0 => first.report(completion, *is_cut)?,
            _ => second.report(completion, *is_cut)?,
        }
    }
    Ok(())
}

/// The loads of both clients.
fn loads_of<L: Load>(alloc: Global, setup: &Setup) -> Result<(L, L), AllocError> {
    let first = L::new(alloc, 0, setup)?;
    let Ok(second) = L::new(alloc, 1, setup) else {
        drop(first);
        return Err(AllocError);
    };
    Ok((first, second))
}

/// A started runtime, and its clients.
fn started<R: Machine>(rt: &R, setup: &Setup) -> Result<(Runtime<Ticking>, Vec<Client>)>
    ensures own { IfOk result (λ t. AreClients t.0.board t.1.items) }
    ensures count { IfOk result (λ t. length t.1.items ≡ 2) }
{
    let alloc = rt.alloc();
    let shape = shape_of(alloc, setup)?;
    let clock = Ticking {
        every: setup.every,
        turns: 0,
    };
    match start(*rt, alloc, &shape, setup.idle, Open, clock) {
        Ok(started) => Ok(started),
        Err(error) => Err(error.into()),
    }
}

impl<L: Load> Fleet<L> {
    /// Starts the runtime of a setup.
    pub fn start<R: Machine>(rt: &R, setup: &Setup) -> Result<Fleet<L>> {
        let (first, second) = loads_of(rt.alloc(), setup)?;
        let (runtime, mut room) = match started(rt, setup) {
            Ok(started) => started,
            Err(error) => {
                drop((first, second));
                return Err(error);
            }
        };
        let Some(one) = room.pop() else {
            unreachable!()
        };
        let Some(zero) = room.pop() else {
            unreachable!()
        };
        Ok(Fleet {
            runtime,
            zero: Driver::new(zero, first, setup.pause),
            one: Driver::new(one, second, Duration::ZERO),
            room,
            are_two: setup.clients == 2,
        })
    }

    /// What its clients have counted.
    pub fn counts(&self) -> Counts {
        self.zero.counts.plus(self.one.counts)
    }

    /// Ends the runtime, and hands its report to the loads. What was counted then: each request once.
    pub fn end<R: Machine>(self, rt: &R) -> Result<Counts> {
        let mut counts = self.counts();
        let Fleet {
            runtime,
            zero,
            one,
            mut room,
            are_two: _,
        } = self;
        let ((one, mut second), (zero, mut first)) = (one.parts(), zero.parts());
        room.push_reserved(one);
        room.push_reserved(zero);
        let report = join(rt, runtime, room)?;
        note_report(&mut first, &mut second, &report)?;
        counts.reported = report.lines().len() as u64;
        if counts.submitted != counts.taken.saturating_add(counts.reported) {
            bail!("a request was neither taken nor reported");
        }
        Ok(counts)
    }
}

/// Each client that is at work carries a round of its load out. How many nanoseconds that took.
pub(crate) fn round_of<R: Threads + Wait + Sync + Clock, L: Load + Send>(
    rt: &R,
    fleet: &mut Fleet<L>,
    units: u64,
) -> Result<u64> {
    let start = Instant::now(rt)?;
    let are_two = fleet.are_two;
    serve_all(rt, &mut fleet.zero, &mut fleet.one, units, are_two)?;
    nanos_since(rt, start)
}
