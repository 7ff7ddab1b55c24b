//! The posts that a client holds.
ghost use Rattle.std.specs.Prelude.{◌≡◌, ◌⊎◌, ◌≤◌, [], List, ◌++◌, None, length, IfOk};
ghost use Rattle.history.specs.declared.req.Req.{Req};
ghost use Rattle.compring.specs.Posts.{waiting};
ghost use Rattle.runtime.specs.Turns.{kept_in};

use crate::locks::PostLocks;
use compring::CompletionRing;
use history::Req;
use std::alloc::{AllocError, Global};
use std::collections::VecDeque;
use std::marker::Model;
use std::sync::Wait;

/// How many posts a `take` takes at once, at most.
/// Under load it takes the lock once for all of them. Those that it holds at the end weren't reaped, and are in the report.
const MOST_TAKEN: usize = 64;

/// The posts of a ring that were taken from its completion ring, and whose completions were not taken, the oldest first; and how many
/// were taken in all. Contracts see the ring's number, the posts, and how many it has places for.
#[derive(Drop)]
pub(crate) struct Held {
    ring: u16,
    posts: VecDeque<Req>,
    places: usize,
    taken: u64,
}

impl Model for Held {
    ghost use Rattle.std.specs.Prelude.{◌≤◌};
    ghost use Rattle.std.specs.VecDeque.{deque_capacity};
    ghost use Rattle.runtime.specs.Clients.{Holding};

    ghost Value = { Holding };

    ghost view = { λ h. record { ring = h.ring; posts = h.posts.items; places = h.places } };

    ghost invariant = { λ h. h.places ≤ deque_capacity h.posts };
}

impl Held {
    /// No posts, of this ring. The room for this many is made here, once.
    pub(crate) fn empty(alloc: Global, ring: u16, places: usize) -> Result<Held, AllocError>
        ensures { IfOk result (λ h. (h.ring ≡ ring) × (h.posts ≡ []) × (h.places ≡ places)) }
    {
        let posts = VecDeque::with_capacity(alloc, places)?;
        Ok(Held {
            ring,
            posts,
            places,
            taken: 0,
        })
    }

    /// The ring.
    pub(crate) fn ring(&self) -> u16
        ensures { result ≡ self.now.ring }
    {
        self.ring
    }

    /// How many posts it holds.
    pub(crate) fn len(&self) -> usize
        ensures { result ≡ length self.now.posts }
    {
        self.posts.len()
    }

    /// Takes posts out of the completion ring of its ring, the oldest first, as long as there is one, until it holds that many.
    fn gather(&mut self, ring: &mut CompletionRing, most: usize)
        requires own { ring.old.owner ≡ self.old.ring }
        requires places { most ≤ self.old.places }
        ensures same { (self.new.ring ≡ self.old.ring) × (self.new.places ≡ self.old.places) }
        ensures gathered { self.old.posts ++ waiting ring.old ≡ self.new.posts ++ waiting ring.new }
        ensures found { (found : List Req) × (self.new.posts ≡ self.old.posts ++ found) }
        ensures all { (waiting ring.new ≡ []) ⊎ (most ≤ length self.new.posts) }
    {
        while self.posts.len() < most {
            let Some((_number, req)) = ring.take() else {
                return;
            };
            self.posts.push_back_reserved(req);
            self.taken = self.taken.wrapping_add(1);
        }
    }

    /// Looks into the completion ring of its ring, where more was posted there than was taken, until it holds that many.
    fn look_into<R: Wait>(&mut self, rt: &R, posts: &PostLocks, most: usize)
        requires places { most ≤ self.old.places }
        ensures same { (self.new.ring ≡ self.old.ring) × (self.new.places ≡ self.old.places) }
        ensures found { (found : List Req) × (self.new.posts ≡ self.old.posts ++ found) }
    {
        if posts.posted(self.ring) == self.taken {
            return;
        }
        if let Some(mut posting) = posts.lock(rt, self.ring) {
            self.gather(&mut posting.ring, most);
        }
    }

    /// Takes out of the completion ring of its ring as many posts as it has places for.
    pub(crate) fn gather_all<R: Wait>(&mut self, rt: &R, posts: &PostLocks)
        ensures same { (self.new.ring ≡ self.old.ring) × (self.new.places ≡ self.old.places) }
        ensures found { (found : List Req) × (self.new.posts ≡ self.old.posts ++ found) }
    {
        self.look_into(rt, posts, self.places);
    }

    /// Looks into the completion ring of its ring, where it holds no post.
    fn refill<R: Wait>(&mut self, rt: &R, posts: &PostLocks)
        ensures same { (self.new.ring ≡ self.old.ring) × (self.new.places ≡ self.old.places) }
        ensures found { (found : List Req) × ((self.old.posts ≡ []) ⊎ (found ≡ [])) × (self.new.posts ≡ self.old.posts ++ found) }
    {
        if self.posts.len() == 0 {
            self.look_into(rt, posts, self.places.min(MOST_TAKEN));
        }
    }

    /// Takes the oldest post: of those that it holds, or else of the completion ring of its ring.
    pub(crate) fn next<R: Wait>(&mut self, rt: &R, posts: &PostLocks) -> Option<Req>
        ensures same { (self.new.ring ≡ self.old.ring) × (self.new.places ≡ self.old.places) }
        ensures taken { (found : List Req) × ((self.old.posts ≡ []) ⊎ (found ≡ [])) × (self.old.posts ++ found ≡ kept_in result ++ self.new.posts) }
        ensures none { result ≡ None → self.new.posts ≡ [] }
    {
        self.refill(rt, posts);
        self.posts.pop_front()
    }
}
