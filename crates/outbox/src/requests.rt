//! A bounded queue of requests. To put one in takes no memory: its place was made before.
ghost use Rattle.std.specs.Prelude.{◌≡◌, ◌+◌, ◌<◌, ◌≤◌, ◌==◌, ◌∷◌, ◌++◌, [], length, false, IfOk, OnErr, IfSome, MatchOption, slice_get};
ghost use Rattle.outbox.specs.Outbox.{no_requests, with_request};

use crate::error::Memory;
use history::Req;
use std::alloc::{AllocError, Global};
use std::collections::VecDeque;
use std::marker::Model;

/// Requests in the order in which they were put in, the oldest first. Contracts see them, and how many places there are.
#[derive(Drop)]
pub struct RequestQueue {
    places: usize,
    pub(crate) items: VecDeque<Req>,
}

/// Answered requests that wait to be posted.
pub type Outbox = RequestQueue;

impl Model for RequestQueue {
    ghost use Rattle.outbox.specs.Outbox.{Places, FitsPlaces};
    ghost use Rattle.std.specs.VecDeque.{deque_capacity};

    ghost Value = { Places };

    ghost view = { λ q. record { places = q.places; items = q.items.items } };

    ghost invariant = { λ q. FitsPlaces q.places q.items.items (deque_capacity q.items) };
}

impl RequestQueue {
    /// An empty queue. Its room is made here, once.
    pub fn new(alloc: Global, places: u32) -> Result<RequestQueue, Memory>
        ensures { IfOk result (λ q. q ≡ no_requests places) }
    {
        Ok(RequestQueue::with_places(alloc, places as usize)?)
    }

    /// An empty queue with this many places.
    pub fn with_places(alloc: Global, places: usize) -> Result<RequestQueue, AllocError>
        ensures { IfOk result (λ q. q ≡ no_requests places) }
    {
        let items = VecDeque::with_capacity(alloc, places)?;
        Ok(RequestQueue { places, items })
    }

    /// Makes places for this many more requests, where there are too few. Where memory is refused, nothing changes.
    pub fn make_places(&mut self, more: usize) -> Result<(), AllocError>
        ensures same { self.new.items ≡ self.old.items }
        ensures places { IfOk result (λ _. length self.new.items + more ≤ self.new.places) }
        ensures kept { self.old.places ≤ self.new.places }
        ensures refused { OnErr result (self.new ≡ self.old) }
    {
        self.items.reserve(more)?;
        self.places = self.places.max(self.items.len() + more);
        Ok(())
    }

    /// The oldest request, if there is one.
    pub fn first(&self) -> Option<Req>
        ensures { result ≡ slice_get self.now.items 0 }
    {
        self.items.front().copied()
    }

    /// How many requests there are.
    pub fn len(&self) -> usize
        ensures { result ≡ length self.now.items }
    {
        self.items.len()
    }

    /// The request at this place: the oldest is at 0.
    pub fn get(&self, place: usize) -> Option<Req>
        ensures { result ≡ slice_get self.now.items place }
    {
        self.items.get(place).copied()
    }

    /// How many places are free.
    pub fn room(&self) -> usize
        ensures { result + length self.now.items ≡ self.now.places }
    {
        self.places - self.items.len()
    }

    /// Whether all places are taken.
    pub fn is_full(&self) -> bool
        ensures full { result ≡ (length self.now.items == self.now.places) }
        ensures open { result ≡ false → length self.now.items < self.now.places }
    {
        self.items.len() == self.places
    }

    /// Puts a request in, after all others.
    pub fn put(&mut self, req: Req)
        requires room { length self.old.items < self.old.places }
        ensures { self.new ≡ with_request req self.old }
    {
        self.items.push_back_reserved(req);
    }

    /// Puts requests in, in order, after all others.
    pub fn put_all(&mut self, reqs: &[Req])
        requires room { length self.old.items + length reqs.now ≤ self.old.places }
        ensures { self.new ≡ record self.old { items = self.old.items ++ reqs.now } }
    {
        for req in reqs {
            self.put(*req);
        }
    }

    /// Takes the oldest request out.
    pub fn take(&mut self) -> Option<Req>
        ensures places { self.new.places ≡ self.old.places }
        ensures open { IfSome result (λ _. length self.new.items < self.new.places) }
        ensures taken { MatchOption result ((self.new ≡ self.old) × (self.old.items ≡ [])) (λ req. self.old.items ≡ req ∷ self.new.items) }
    {
        self.items.pop_front()
    }
}
