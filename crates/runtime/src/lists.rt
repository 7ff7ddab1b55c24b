//! What the poller's desk looks after.
ghost use Rattle.std.specs.Prelude.{◌≡◌, ◌<◌, ◌+◌, ◌++◌, ◌∷◌, [], length, ℕ, List, IfOk, IfErr};
ghost use Rattle.history.specs.History.{armed, phase};
ghost use Rattle.steps.specs.declared.line.Line.{Line};
ghost use Rattle.steps.specs.Journal.{events_of};
ghost use Rattle.runtime.specs.{LooksAfter, cares_of, taken_in, with_waiting, WaitsOn};

use crate::error::Memory;
use history::Req;
use outbox::RequestQueue;
use std::alloc::Global;
use wheel::{TimerSet, Timers};

/// The cells of a ring, and how many of its requests were taken up.
#[derive(Clone, Copy)]
pub(crate) struct Intake {
    pub cells: u64,
    pub taken: u64,
}

/// Of each ring how many requests were taken up; those that wait for another; the armed timers; and among them those that may wait
/// for replies, as LINK_TIMEOUTs do and TIMEOUTs that count.
#[derive(Drop)]
pub(crate) struct Lists {
    pub rings: Vec<Intake>,
    pub waiting: RequestQueue,
    pub timers: Timers,
    pub watchers: RequestQueue,
}

impl Lists {
    /// Empty lists, for these rings, which have this many cells in all.
    pub fn new(alloc: Global, rings: Vec<Intake>, places: usize) -> Result<Lists, Memory>
        ensures rings { IfOk result (λ l. l.rings ≡ rings) }
        ensures places { IfOk result (λ l. l.waiting.places ≡ places) }
        ensures cares { (j : List Line) → ((i : ℕ) → taken_in rings.items i ≡ 0) → IfOk result (λ l. LooksAfter (cares_of l) j) }
    {
        let waiting = RequestQueue::with_places(alloc, places)?;
        let watchers = RequestQueue::with_places(alloc, places)?;
        Ok(Lists {
            rings,
            waiting,
            timers: Timers::new(alloc),
            watchers,
        })
    }

    /// How many requests of the ring were taken up.
    pub fn taken(&self, ring: u16) -> u64
        requires { ring < length self.now.rings.items }
        ensures { result ≡ taken_in self.now.rings.items ring }
    {
        self.rings[usize::from(ring)].taken
    }

    /// Looks after a timer that is armed: notes its deadline, and that a reply may end it. Where that finds no memory it waits, to
    /// be tried again.
    pub fn note(&mut self, req: Req, deadline: u32) -> Result<(), Memory>
        requires waiting { length self.old.waiting.items < self.old.waiting.places }
        ensures rings { self.new.rings ≡ self.old.rings }
        ensures waits { WaitsOn req self.old.waiting self.new.waiting }
        ensures same { IfOk result (λ _. self.new.waiting ≡ self.old.waiting) }
        ensures cares { (j : List Line) → phase (events_of j) req ≡ armed deadline → LooksAfter (with_waiting req (cares_of self.old)) j → LooksAfter (cares_of self.new) j }
    {
        let Ok(()) = self.timers.arm(req, deadline) else {
            self.waiting.put(req);
            return Err(Memory);
        };
        let Ok(()) = self.watchers.make_places(1) else {
            self.waiting.put(req);
            return Err(Memory);
        };
        self.watchers.put(req);
        Ok(())
    }
}
