//! What a turn of the poller tells: the requests that are to be run, and those that it answered.
ghost use Rattle.std.specs.Prelude.{◌≡◌, ◌++◌, ◌∷◌, [], ◌≤◌, ◌<◌, ◌+◌, true, length, map, Ok, IfOk};
ghost use Rattle.ring_c.specs.{HasRoom, Shows, number_for};

use crate::number::{Number, copy_numbers};
use crate::results::Turn;
use history::Req;
use std::alloc::{AllocError, Global};
use std::marker::Model;

/// The requests that a turn moved to the workers, and those that it answered, with room for this many of each, and whether it did
/// something.
#[derive(Drop)]
pub(crate) struct Out {
    ready: Vec<Req>,
    answered: Vec<Req>,
    ready_most: usize,
    answered_most: usize,
    moved: bool,
}

impl Model for Out {
    ghost use Rattle.std.specs.Prelude.{◌≤◌, length, vec_capacity};
    ghost use Rattle.ring_c.specs.Turns.{Told};

    ghost Value = { Told };

    ghost view = { λ o. record { ready = o.ready.items; answered = o.answered.items; ready_most = o.ready_most; answered_most = o.answered_most } };

    ghost invariant = { λ o. ((o.ready_most ≤ vec_capacity o.ready) × (o.answered_most ≤ vec_capacity o.answered)) × ((length o.ready.items ≤ o.ready_most) × (length o.answered.items ≤ o.answered_most)) };
}

impl Out {
    /// A list for each, with room for this many requests.
    pub(crate) fn new(alloc: Global, places: usize) -> Result<Out, AllocError>
        ensures { IfOk result (λ o. (o.ready ≡ []) × (o.answered ≡ [])) }
    {
        let ready = Vec::with_capacity(alloc, places)?;
        let answered = Vec::with_capacity(alloc, places)?;
        Ok(Out {
            ready,
            answered,
            ready_most: 0,
            answered_most: 0,
            moved: false,
        })
    }

    /// Empties the lists for a turn that tells at most this many of each.
    pub(crate) fn begin(&mut self, ready_most: usize, answered_most: usize)
        ensures { (self.new.ready ≡ []) × (self.new.answered ≡ []) × (self.new.ready_most ≤ ready_most) × (self.new.answered_most ≤ answered_most) }
    {
        self.ready.clear();
        self.answered.clear();
        self.ready_most = ready_most.min(self.ready.capacity());
        self.answered_most = answered_most.min(self.answered.capacity());
        self.moved = false;
    }

    /// Whether there is room for what one request may bring: to be run, or answered with its target.
    pub(crate) fn is_free(&self) -> bool
        ensures { result ≡ true → HasRoom self.now }
    {
        self.ready.len() < self.ready_most
            && self.answered_most.saturating_sub(self.answered.len()) >= 2
    }

    /// The turn did something.
    pub(crate) fn note_move(&mut self)
        ensures { self.new ≡ self.old }
    {
        self.moved = true;
    }

    /// The request is to be run.
    pub(crate) fn put_ready(&mut self, req: Req)
        requires { length self.old.ready < self.old.ready_most }
        ensures { self.new ≡ record self.old { ready = self.old.ready ++ req ∷ [] } }
    {
        self.ready.push_reserved(req);
        self.moved = true;
    }

    /// The request was answered.
    pub(crate) fn put_answered(&mut self, req: Req)
        requires { length self.old.answered < self.old.answered_most }
        ensures { self.new ≡ record self.old { answered = self.old.answered ++ req ∷ [] } }
    {
        self.answered.push_reserved(req);
        self.moved = true;
    }

    /// Copies the numbers of the requests that are to be run, and of those that were answered. The arrays have room for them. What the
    /// turn did.
    pub(crate) fn copy_out(&self, ready: &mut [Number], answered: &mut [Number]) -> Turn
        requires ready { self.now.ready_most ≤ length ready.old }
        requires answered { self.now.answered_most ≤ length answered.old }
        ensures ready { Shows (map number_for self.now.ready) ready.old ready.new (Ok result.ready) }
        ensures answered { Shows (map number_for self.now.answered) answered.old answered.new (Ok result.answered) }
    {
        let (Ok(ready), Ok(answered)) = (
            copy_numbers(self.ready.as_slice(), ready),
            copy_numbers(self.answered.as_slice(), answered),
        ) else {
            unreachable!()
        };
        Turn {
            moved: self.moved,
            ready,
            answered,
        }
    }
}
