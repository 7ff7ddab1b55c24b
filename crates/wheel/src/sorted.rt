//! Timers in the order of their deadlines.
ghost use Rattle.std.specs.Prelude.{◌≡◌, ◌<◌, ◌≤◌, ℕ, ◌∷◌, [], true, false, length, IsTrue, IsSome, OnOk, OnErr, ◌↔◌, MatchOption, None, Some, slice_get};
ghost use Rattle.std.specs.VecDeque.{deque_len, deque_capacity};
ghost use Rattle.history.specs.History.{same};
ghost use Rattle.wheel.specs.declared.sorted.Timer.{Timer};
ghost use Rattle.wheel.specs.{armed, dropped, IsOnce, InOrder, deadline_in, with_timer, without};

use crate::error::Memory;
use crate::set::TimerSet;
use history::Req;
use std::alloc::Global;
use std::collections::VecDeque;
use std::marker::Model;

/// A request with its deadline.
#[derive(Clone, Copy)]
pub struct Timer {
    pub req: Req,
    pub at: u32,
}

/// Timers in the order of their deadlines: a list, with one timer of a request at most. Contracts see it. It is a deque, so that the
/// first timer leaves without moving the others.
#[derive(Drop)]
pub struct SortedTimers {
    timers: VecDeque<Timer>,
}

impl Model for SortedTimers {
    ghost use Rattle.std.specs.Prelude.{List};
    ghost use Rattle.wheel.specs.declared.sorted.Timer.{Timer};
    ghost use Rattle.wheel.specs.TimerLists.{IsOnce, InOrder};

    ghost Value = { List Timer };

    ghost view = { λ s. s.timers.items };

    ghost invariant = { λ s. InOrder s.timers.items × IsOnce s.timers.items };
}

impl SortedTimers {
    /// No timers.
    pub fn new(alloc: Global) -> SortedTimers
        ensures { result ≡ [] }
    {
        SortedTimers {
            timers: VecDeque::new(alloc),
        }
    }

    /// The first timer, which has the least deadline.
    pub fn first(&self) -> Option<Timer>
        ensures first { MatchOption result (self.now ≡ []) (λ t. slice_get self.now 0 ≡ Some t) }
        ensures sorted { InOrder self.now }
    {
        self.timers.front().copied()
    }

    /// Arms a timer of a request that has none. Want of memory changes nothing.
    pub fn add(&mut self, timer: Timer) -> Result<(), Memory>
        requires { deadline_in self.old timer.req ≡ None }
        ensures ok { OnOk result (deadline_in self.new ≡ armed (deadline_in self.old) timer.req timer.at) }
        ensures err { OnErr result (deadline_in self.new ≡ deadline_in self.old) }
    {
        if self.timers.reserve(1).is_err() {
            return Err(Memory);
        }
        put(&mut self.timers, timer);
        Ok(())
    }

    /// Forgets a timer that is there. It is sought from the first with its deadline on.
    pub fn drop_at(&mut self, timer: Timer)
        requires { deadline_in self.old timer.req ≡ Some timer.at }
        ensures { deadline_in self.new ≡ dropped (deadline_in self.old) timer.req }
    {
        let from = first_from(&self.timers, timer.at);
        let _was_there = take_out(&mut self.timers, timer.req, from);
    }
}

/// The timer is this request's.
fn is_of(timer: &Timer, req: Req) -> bool
    ensures { result ≡ same timer.now.req req }
{
    timer.req == req
}

/// The place of a request's timer, from a place on; the length where it has none there.
fn find(timers: &VecDeque<Timer>, req: Req, from: usize) -> usize
    requires from { from ≤ length timers.now.items }
    ensures within { result ≤ length timers.now.items }
    ensures before { (k : ℕ) (t : Timer) → from ≤ k → k < result → slice_get timers.now.items k ≡ Some t → same t.req req ≡ false }
    ensures there { (t : Timer) → slice_get timers.now.items result ≡ Some t → same t.req req ≡ true }
{
    let mut k = from;
    while k < timers.len() && !is_of(&timers[k], req) {
        k += 1;
    }
    k
}

/// Takes the timer of a request out, if it has one. It has none before the place `from`.
fn take_out(timers: &mut VecDeque<Timer>, req: Req, from: usize) -> bool
    requires once { IsOnce timers.old.items }
    requires from { from ≤ deque_len timers.old }
    requires before { (k : ℕ) (t : Timer) → k < from → slice_get timers.old.items k ≡ Some t → same t.req req ≡ false }
    ensures items { timers.new.items ≡ without req timers.old.items }
    ensures there { IsTrue result ↔ IsSome (deadline_in timers.old.items req) }
    ensures bound { deque_len timers.new ≤ deque_len timers.old }
    ensures capacity { deque_capacity timers.new ≡ deque_capacity timers.old }
{
    let k = find(timers, req, from);
    match timers.remove(k) {
        None => false,
        Some(_) => true,
    }
}

/// A place before which all deadlines are below this one, found by halving.
fn first_from(timers: &VecDeque<Timer>, at: u32) -> usize
    requires { InOrder timers.now.items }
    ensures within { result ≤ length timers.now.items }
    ensures before { (k : ℕ) (t : Timer) → k < result → slice_get timers.now.items k ≡ Some t → t.at < at }
{
    let mut low = 0;
    let mut high = timers.len();
    while low < high {
        let middle = low + (high - low) / 2;
        if timers[middle].at < at {
            low = middle + 1;
        } else {
            high = middle;
        }
    }
    low
}

/// The place after all timers with no later deadline. It is sought from the back, since a new deadline is mostly the latest.
fn place(timers: &VecDeque<Timer>, at: u32) -> usize
    requires { InOrder timers.now.items }
    ensures within { result ≤ length timers.now.items }
    ensures before { (k : ℕ) (t : Timer) → k < result → slice_get timers.now.items k ≡ Some t → t.at ≤ at }
    ensures after { (t : Timer) → slice_get timers.now.items result ≡ Some t → at < t.at }
{
    let mut k = timers.len();
    while k > 0 && at < timers[k - 1].at {
        k -= 1;
    }
    k
}

/// Puts a timer in its place. There is room for it.
fn put(timers: &mut VecDeque<Timer>, timer: Timer)
    requires sorted { InOrder timers.old.items }
    requires room { deque_len timers.old < deque_capacity timers.old }
    ensures { timers.new.items ≡ with_timer timer timers.old.items }
{
    let k = place(timers, timer.at);
    let Ok(()) = timers.insert(k, timer) else {
        unreachable!()
    };
}

impl TimerSet for SortedTimers {
    ghost use Rattle.wheel.specs.TimerLists.{deadline_in};

    ghost deadline = { deadline_in };

    fn arm(&mut self, req: Req, at: u32) -> Result<(), Memory> {
        if self.timers.reserve(1).is_err() {
            return Err(Memory);
        }
        let timer = Timer { req, at };
        let _was_there = take_out(&mut self.timers, timer.req, 0);
        put(&mut self.timers, timer);
        Ok(())
    }

    fn drop_timer(&mut self, req: Req) -> bool {
        take_out(&mut self.timers, req, 0)
    }

    fn due(&self, now: u32) -> Option<Req> {
        let first = self.first()?;
        if first.at <= now {
            Some(first.req)
        } else {
            None
        }
    }
}
