//! The poller's passes in a turn.
ghost use Rattle.std.specs.Prelude.{◌≡◌, ◌≢◌, ◌<◌, ◌+◌, ◌++◌, ◌∷◌, [], true, false};
ghost use Rattle.outbox.specs.Outbox.{with_request};
ghost use Rattle.ready.specs.Ready.{IsQueuePass};
ghost use Rattle.runtime.specs.{HasRoom, IsStuck, HandedOver};

use crate::backlog::Backlog;
use crate::turn::Route;
use board::Poller;
use history::Req;
use outbox::Outbox;
use ready::span::MOST;
use ready::{ReadyPass, ReadyQueue};
use std::sync::Wait;

/// The poller, its pass of the ready queue, the numbers that are to go there, how many workers take them, for how many answers the
/// outbox still has room, and whether the turn did something.
#[derive(Drop)]
pub(crate) struct PollState {
    pub poller: Poller,
    pub ready: ReadyPass,
    pub kept: Backlog,
    pub workers: u32,
    pub room: usize,
    pub moved: bool,
}

impl PollState {
    /// Whether its numbers found their places, and it may answer one request more.
    pub fn is_free(&self) -> bool
        ensures kept { result ≡ true → self.now.kept.is_full ≡ false }
        ensures room { result ≡ true → 0 < self.now.room }
        ensures stuck { result ≡ false → IsStuck self.now }
    {
        !self.kept.is_full() && self.room > 0
    }

    /// Puts an answered request into the outbox.
    pub fn answer(&mut self, outbox: &mut Outbox, req: Req)
        requires some { 0 < self.old.room }
        requires room { HasRoom self.old outbox.old }
        ensures answered { outbox.new ≡ with_request req outbox.old }
        ensures moved { self.new.moved ≡ true }
        ensures room { self.new.room + 1 ≡ self.old.room }
        ensures same { (self.new.poller ≡ self.old.poller) × (self.new.ready ≡ self.old.ready) × (self.new.kept ≡ self.old.kept) }
    {
        outbox.put(req);
        self.room -= 1;
        self.moved = true;
    }

    /// Limits how many of this many requests go to a worker together: each worker gets its part. So a few are shared out one by one, and
    /// with one worker all that a span holds go together, since no other worker could run them.
    pub fn limit_for(&mut self, requests: u64)
        ensures { self.new ≡ self.old }
    {
        let part = requests / u64::from(self.workers.max(1));
        self.kept.limit_to(part.clamp(1, u64::from(MOST)) as u8);
    }

    /// Hands a request over to the ready queue: with the next ones, up to the limit, or at the end of the turn at the latest.
    pub fn hand_over<R: Wait>(&mut self, route: Route<'_, R>, req: Req)
        requires own { IsQueuePass route.queue.now self.old.ready }
        requires free { self.old.kept.is_full ≡ false }
        ensures handed { HandedOver self.old.ready (self.old.kept.numbers ++ req ∷ []) self.new.ready self.new.kept.numbers }
        ensures same { (self.new.poller ≡ self.old.poller) × (self.new.room ≡ self.old.room) }
        ensures moved { self.new.moved ≡ true }
    {
        self.moved = true;
        self.kept.add(route.rt, route.queue, &mut self.ready, req);
    }

    /// Puts the numbers that are kept into the ready queue, where it has places.
    pub fn retry<R: Wait>(&mut self, rt: &R, queue: &ReadyQueue)
        requires own { IsQueuePass queue.now self.old.ready }
        ensures handed { HandedOver self.old.ready self.old.kept.numbers self.new.ready self.new.kept.numbers }
        ensures same { (self.new.poller ≡ self.old.poller) × (self.new.room ≡ self.old.room) }
        ensures quiet { self.new.moved ≡ false → (self.old.moved ≡ false) × (self.old.kept.numbers ≡ []) }
    {
        if !self.kept.is_empty() {
            self.moved = true;
        }
        self.kept.flush(rt, queue, &mut self.ready);
    }

    /// The same at the end of a turn: numbers that found no place in it wait for the next turn.
    pub fn retry_rest<R: Wait>(&mut self, rt: &R, queue: &ReadyQueue)
        requires own { IsQueuePass queue.now self.old.ready }
        ensures handed { HandedOver self.old.ready self.old.kept.numbers self.new.ready self.new.kept.numbers }
        ensures same { (self.new.poller ≡ self.old.poller) × (self.new.room ≡ self.old.room) }
        ensures quiet { self.new.moved ≡ false → (self.old.moved ≡ false) × (self.old.kept.numbers ≡ []) }
        ensures kept { self.old.kept.is_full ≡ true → self.new.kept.numbers ≢ [] }
    {
        if self.kept.is_full() {
            self.moved = true;
        } else {
            self.retry(rt, queue);
        }
    }
}
