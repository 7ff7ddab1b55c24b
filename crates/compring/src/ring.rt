//! The completion ring.
ghost use Rattle.std.specs.Prelude.{◌≡◌, ◌↔◌, ◌⊎◌, ◌≢◌, ℕ, ◌+◌, ◌%◌, ◌^◌, ◌<◌, ◌≤◌, ◌++◌, ◌∷◌, [], List, length, take, drop, IfOk, OnOk, OnErr, IsErrOf, IsTrue, MatchOption, Some, None, slice_get};
ghost use Rattle.history.specs.declared.req.Req.{Req};
ghost use Rattle.compring.specs.Posts.{Posts, IsKept, StandsFor, waiting, new_posts, place_in};

use crate::error::PostError;
use history::Req;
use limits::POSTS;
use std::alloc::Global;
use std::collections::VecDeque;
use std::marker::Model;

/// Where a post went.
#[derive(Clone, Copy, PartialEq, Eq, Debug)]
pub enum Place {
    /// Into the ring.
    Ring,
    /// Into the overflow, since the ring is full (io_uring(7), CQ overflow).
    Overflow,
}

/// Posts in their order. Contracts see whose they are, what waits in the ring and in its overflow, and the number of the next to be
/// taken. That the overflow is empty unless the ring is full is an invariant, so that it holds of what a lock finds.
#[derive(Drop)]
pub struct CompletionRing {
    owner: u16,
    size: usize,
    taken: u64,
    ring: VecDeque<Req>,
    overflow: VecDeque<Req>,
}

impl Model for CompletionRing {
    ghost use Rattle.std.specs.Prelude.{◌≤◌};
    ghost use Rattle.std.specs.VecDeque.{deque_capacity};
    ghost use Rattle.compring.specs.Posts.{Posts, IsKept};

    ghost Value = { Posts };

    ghost view = { λ c. record { owner = c.owner; size = c.size; taken = c.taken; ring = c.ring.items; overflow = c.overflow.items } };

    ghost invariant = { λ c. IsKept (record { owner = c.owner; size = c.size; taken = c.taken; ring = c.ring.items; overflow = c.overflow.items }) × (c.size ≤ deque_capacity c.ring) };
}

impl CompletionRing {
    /// An empty ring for `size` posts of ring 0. Its room is made here, once.
    pub fn new(alloc: Global, size: u32) -> Result<CompletionRing, PostError>
        ensures bad_size { IsErrOf result PostError.BadSize ↔ ((size ≡ 0) ⊎ (2048 < size)) }
        ensures empty { IfOk result (λ c. c ≡ new_posts 0 size) }
        ensures stands { IfOk result (λ c. StandsFor [] 0 c) }
    {
        CompletionRing::for_ring(alloc, size, 0)
    }

    /// An empty ring for `size` posts of the ring with the number `owner`. Its room is made here, once.
    pub fn for_ring(alloc: Global, size: u32, owner: u16) -> Result<CompletionRing, PostError>
        ensures bad_size { IsErrOf result PostError.BadSize ↔ ((size ≡ 0) ⊎ (2048 < size)) }
        ensures empty { IfOk result (λ c. c ≡ new_posts owner size) }
        ensures stands { IfOk result (λ c. StandsFor [] 0 c) }
    {
        if size == 0 || size > POSTS {
            return Err(PostError::BadSize);
        }
        let size = size as usize;
        let ring = VecDeque::with_capacity(alloc, size)?;
        Ok(CompletionRing {
            owner,
            size,
            taken: 0,
            ring,
            overflow: VecDeque::new(alloc),
        })
    }

    /// The number of the ring whose requests are posted here.
    pub fn owner(&self) -> u16
        ensures { result ≡ self.now.owner }
    {
        self.owner
    }

    /// Posts a request after all that wait: into the ring where that has room, else into the overflow. `Memory` comes only
    /// where the ring is full, and changes nothing.
    pub fn post(&mut self, req: Req) -> Result<Place, PostError>
        ensures place { IfOk result (λ place. place ≡ place_in self.old) }
        ensures posted { OnOk result (waiting self.new ≡ waiting self.old ++ req ∷ []) }
        ensures stands { OnOk result ((posts : List Req) (taken : ℕ) → StandsFor posts taken self.old → StandsFor (posts ++ req ∷ []) taken self.new) }
        ensures owner { self.new.owner ≡ self.old.owner }
        ensures size { self.new.size ≡ self.old.size }
        ensures taken { self.new.taken ≡ self.old.taken }
        ensures memory { OnErr result ((length self.old.ring ≡ self.old.size) × IsErrOf result PostError.Memory) }
        ensures unchanged { OnErr result (self.new ≡ self.old) }
    {
        if self.ring.len() < self.size {
            self.ring.push_back_reserved(req);
            return Ok(Place::Ring);
        }
        match self.overflow.push_back(req) {
            Ok(()) => Ok(Place::Overflow),
            Err(_) => Err(PostError::Memory),
        }
    }

    /// Takes the oldest post, with its number: the first post has the number 0, and after 2^64 of them the numbers begin
    /// again. The oldest of the overflow then moves into the ring.
    pub fn take(&mut self) -> Option<(u64, Req)>
        ensures oldest { MatchOption result (waiting self.old ≡ []) (λ post. waiting self.old ≡ post.1 ∷ waiting self.new) }
        ensures number { MatchOption result (self.new ≡ self.old) (λ post. (post.0 ≡ self.old.taken) × (self.new.taken ≡ (self.old.taken + 1) % 2 ^ 64)) }
        ensures stands { (posts : List Req) (taken : ℕ) → StandsFor posts taken self.old → MatchOption result (length posts ≡ taken) (λ post. (slice_get posts taken ≡ Some post.1) × (post.0 ≡ taken % 2 ^ 64) × StandsFor posts (taken + 1) self.new) }
        ensures owner { self.new.owner ≡ self.old.owner }
        ensures size { self.new.size ≡ self.old.size }
    {
        let req = self.ring.pop_front()?;
        let number = self.taken;
        self.taken = number.wrapping_add(1);
        if let Some(next) = self.overflow.pop_front() {
            self.ring.push_back_reserved(next);
        }
        Some((number, req))
    }

    /// The overflow isn't empty (io_uring(7), IORING_SQ_CQ_OVERFLOW).
    pub fn overflowed(&self) -> bool
        ensures overflowed { IsTrue result ↔ (0 < length self.now.overflow) }
        ensures kept { IsKept self.now }
    {
        self.overflow.len() > 0
    }
}
