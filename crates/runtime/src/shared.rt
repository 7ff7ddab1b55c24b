//! What the poller, the workers and the clients of a runtime share.
ghost use Rattle.std.specs.Prelude.{◌≡◌, IfOk};
ghost use Rattle.std.specs.Arc.{arc_value};

use crate::error::Memory;
use crate::locks::PostLocks;
use crate::turn::Route;
use bell::Bell;
use board::Board;
use crossbeam_utils::CachePadded;
use ready::ReadyQueue;
use std::hint;
use std::sync::Arc;
use std::sync::atomic::{AtomicBool, AtomicU64, Ordering};

/// How many looks find out whether the workers have something to do. They take some milliseconds, as long as a turn of a poller with
/// hundreds of requests that wait, so that one of them comes between two turns.
const LOOKS: u32 = 65_536;

/// The board, its doorbell and its ready queue; the completion ring of each ring, each under a lock of its own; and whether the
/// workers are to end, as the poller says once it was told to, and whether the threads end once they find nothing to do any more. The
/// poller counts in each turn, so what it counts has cache lines of its own: a client looks at what is beside it with each completion.
#[derive(Drop)]
pub(crate) struct Shared {
    pub board: Board,
    pub bell: Bell,
    pub queue: ReadyQueue,
    pub posts: PostLocks,
    pub is_over: AtomicBool,
    pub is_resting: AtomicBool,
    pub counters: CachePadded<Counters>,
}

impl Shared {
    /// What the threads of a runtime share before they start.
    pub fn new(board: Board, bell: Bell, queue: ReadyQueue, posts: PostLocks) -> Shared
        ensures { (result.board ≡ board) × (result.bell ≡ bell) × (result.queue ≡ queue) × (result.posts ≡ posts) }
    {
        Shared {
            board,
            bell,
            queue,
            posts,
            is_over: AtomicBool::new(false),
            is_resting: AtomicBool::new(false),
            counters: CachePadded::new(Counters::new()),
        }
    }
}

/// What a thread makes its turns with: the permission to wait, what all threads share, and the turnstile.
#[derive_where(Clone, Copy)]
pub(crate) struct Context<'a, R, G> {
    pub rt: &'a R,
    pub shared: &'a Shared,
    pub turnstile: &'a G,
}

impl<'a, R, G> Context<'a, R, G> {
    /// Where its turns are made.
    pub fn route(self) -> Route<'a, R>
        ensures { (result.board.now ≡ self.entry.shared.now.board) × (result.queue.now ≡ self.entry.shared.now.queue) }
    {
        let Context { rt, shared, .. } = self;
        Route {
            rt,
            board: &shared.board,
            queue: &shared.queue,
        }
    }
}

/// What each thread of a runtime is started with: the permissions, what all threads share, and the turnstile.
#[derive(Drop)]
pub(crate) struct Stage<R, G> {
    pub rt: R,
    pub shared: Arc<Shared>,
    pub turnstile: Arc<G>,
}

impl<R: Copy, G: Drop> Stage<R, G> {
    /// The same for one thread more.
    pub fn share(&self) -> Result<Stage<R, G>, Memory>
        ensures { IfOk result (λ t. arc_value t.shared ≡ arc_value self.now.shared) }
    {
        let (Ok(shared), Ok(turnstile)) = (
            Arc::try_clone(&self.shared),
            Arc::try_clone(&self.turnstile),
        ) else {
            return Err(Memory);
        };
        let rt = self.rt;
        Ok(Stage {
            rt,
            shared,
            turnstile,
        })
    }

    /// What its thread makes its turns with.
    pub fn context(&self) -> Context<'_, R, G>
        ensures { result.shared.now ≡ arc_value self.now.shared }
    {
        Context {
            rt: &self.rt,
            shared: &*self.shared,
            turnstile: &*self.turnstile,
        }
    }
}

/// How many numbers went to the workers, from the poller and from the pipes, and with how many of these they are done. What was answered
/// is posted before it is counted. The poller counts its numbers in the turn in which it hands them over, and how often a turn began or ended:
/// where that is odd it is in a turn.
#[derive(Drop)]
pub(crate) struct Counters {
    given: AtomicU64,
    done: AtomicU64,
    turns: AtomicU64,
}

impl Counters {
    /// None yet.
    pub fn new() -> Counters {
        Counters {
            given: AtomicU64::new(0),
            done: AtomicU64::new(0),
            turns: AtomicU64::new(0),
        }
    }

    /// More numbers went to the workers.
    pub fn give(&self, count: u64) {
        if count > 0 {
            self.given.fetch_add(count, Ordering::SeqCst);
        }
    }

    /// The workers are done with more of them.
    pub fn finish(&self, count: u64) {
        if count > 0 {
            self.done.fetch_add(count, Ordering::SeqCst);
        }
    }

    /// A turn of the poller begins, or ends.
    pub fn turn(&self) {
        self.turns.fetch_add(1, Ordering::SeqCst);
    }

    /// How many numbers had gone to the workers at a moment between two turns of the poller, where they were done with all of them. It
    /// looks several times, since a poller that goes round is mostly in a turn.
    pub fn evened(&self) -> Option<u64> {
        for _look in 0..LOOKS {
            if let Some(given) = self.evened_now() {
                return Some(given);
            }
            hint::spin_loop();
        }
        None
    }

    /// The same, of this moment.
    fn evened_now(&self) -> Option<u64> {
        let turns = self.turns.load(Ordering::SeqCst);
        let done = self.done.load(Ordering::SeqCst);
        let given = self.given.load(Ordering::SeqCst);
        if turns % 2 == 0 && given == done && self.turns.load(Ordering::SeqCst) == turns {
            Some(given)
        } else {
            None
        }
    }
}
