//! The completion rings of a runtime, each under a lock of its own.
ghost use Rattle.std.specs.Prelude.{◌≡◌, IfSome, length};
ghost use Rattle.std.specs.Sync.Mutex.{mutex_guard_value};
ghost use Rattle.runtime.specs.PostLocks.{AreNumbered};

use crate::sleeping::Caller;
use compring::CompletionRing;
use crossbeam_utils::CachePadded;
use std::marker::Model;
use std::sync::atomic::{AtomicU64, Ordering};
use std::sync::{Mutex, MutexGuard, Wait};

/// What is under the lock of a ring: its completion ring, and the one who wakes its client.
#[derive(Drop)]
pub(crate) struct Posting {
    pub ring: CompletionRing,
    pub caller: Caller,
}

/// The completion ring of a ring, under its lock, and how many posts it was given, which is read without the lock, and has cache lines of
/// its own: a client that looks for posts takes none away from who posts. Contracts see the number of the ring.
#[derive(Drop)]
pub(crate) struct PostLock {
    owner: u16,
    lock: Mutex<Posting>,
    posted: CachePadded<AtomicU64>,
}

impl Model for PostLock {
    ghost use Rattle.std.specs.Prelude.{ℕ};

    ghost Value = { ℕ };

    ghost view = { λ l. l.owner };
}

impl PostLock {
    /// The lock of this completion ring, whose posts this one calls for.
    pub(crate) fn new(ring: CompletionRing, caller: Caller) -> PostLock
        ensures { result ≡ ring.owner }
    {
        PostLock {
            owner: ring.owner(),
            lock: Mutex::new(Posting { ring, caller }),
            posted: CachePadded::new(AtomicU64::new(0)),
        }
    }

    /// Takes the lock. That the completion ring under it is still the one that was put there is no clause of a lock, so it is asked.
    fn lock<'a, R: Wait>(&'a self, rt: &R) -> MutexGuard<'a, Posting>
        ensures { (mutex_guard_value result).ring.owner ≡ self.now }
    {
        for _ in rt.forever() {
            let posting = self.lock.lock(rt);
            if posting.ring.owner() == self.owner {
                return posting;
            }
        }
        unreachable!()
    }
}

/// The locks of all rings, in order. Contracts see how many there are.
#[derive(Drop)]
pub(crate) struct PostLocks {
    locks: Vec<PostLock>,
}

impl Model for PostLocks {
    ghost use Rattle.std.specs.Prelude.{ℕ, length};
    ghost use Rattle.runtime.specs.PostLocks.{AreNumbered};

    ghost Value = { ℕ };

    ghost view = { λ p. length p.locks.items };

    ghost invariant = { λ p. AreNumbered p.locks.items };
}

impl PostLocks {
    /// These locks, the first of which is that of ring 0.
    pub(crate) fn new(locks: Vec<PostLock>) -> PostLocks
        requires { AreNumbered locks.items }
        ensures { result ≡ length locks.items }
    {
        PostLocks { locks }
    }

    /// Takes the lock of this ring's completion ring, if there is such a ring.
    pub(crate) fn lock<'a, R: Wait>(&'a self, rt: &R, ring: u16) -> Option<MutexGuard<'a, Posting>>
        ensures { IfSome result (λ g. (mutex_guard_value g).ring.owner ≡ ring) }
    {
        let Some(lock) = self.locks.get(usize::from(ring)) else {
            return None;
        };
        Some(lock.lock(rt))
    }

    /// How many posts the completion ring of this ring was given.
    pub(crate) fn posted(&self, ring: u16) -> u64 {
        match self.locks.get(usize::from(ring)) {
            Some(lock) => lock.posted.load(Ordering::SeqCst),
            None => 0,
        }
    }

    /// Notes that the completion ring of this ring was given this many more posts.
    pub(crate) fn note(&self, ring: u16, posts: u64) {
        if let Some(lock) = self.locks.get(usize::from(ring)) {
            lock.posted.fetch_add(posts, Ordering::SeqCst);
        }
    }
}
