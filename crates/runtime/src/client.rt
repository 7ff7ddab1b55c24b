//! The client of one ring.
ghost use Rattle.std.specs.Prelude.{◌≡◌, ◌≢◌, ◌+◌, ◌<◌, ◌≤◌, ◌⊎◌, ◌++◌, ℕ, suc, [], ◌∷◌, List, None, length, min, IfOk, IfErr, IfSome, MatchOption};
ghost use Rattle.std.specs.Arc.{arc_value};
ghost use Rattle.history.specs.declared.event.Event.TheVariants.{Reap};
ghost use Rattle.history.specs.History.{phase, submits};
ghost use Rattle.steps.specs.{cells_in, IsFree, IsReaped};
ghost use Rattle.steps.specs.declared.view.Role.{Role};
ghost use Rattle.work.specs.{IsOf, seen_of, Took};
ghost use Rattle.bell.specs.BellPasses.{IsRingerOf};
ghost use Rattle.board.specs.{steps_in, submits_of, Goes, Finds, next_of, IsCompletion, HasOnce, nth, LinkedAreReaped, RefusesBatch, widest};
ghost use Rattle.runtime.specs.Clients.{HasAwaited, HasTaken, HasPublished, without_tail};

use crate::held::Held;
use crate::releasing::END;
use crate::shared::Shared;
use crate::sleeping::{Listener, await_posts, await_posts_at_most};
use bell::Ringer;
use board::{Completion, Phase, SubmitError, Submitter};
use entry::Sqe;
use history::Req;
use std::marker::Model;
use std::sync::{Arc, Wait};
use std::time::Duration;

/// Submits to one ring and takes its completions. `wait` and `submit_and_wait` sleep until completions are there. `take` waits for
/// nothing but the lock of its ring's completions, which it takes once for all posts that wait, up to 64, and only where there are any.
/// Contracts see its board, its submitter's pass, its ring, the tail that it published last, how often it published one, and the posts
/// that it holds.
#[derive(Drop)]
pub struct Client {
    shared: Arc<Shared>,
    submitter: Submitter,
    ringer: Ringer,
    tail: u64,
    held: Held,
    listener: Option<Listener>,
}

impl Model for Client {
    ghost use Rattle.std.specs.Prelude.{◌≡◌, ◌≢◌, None, length};
    ghost use Rattle.std.specs.Arc.{arc_value};
    ghost use Rattle.board.specs.ShapeLimits.{widest};
    ghost use Rattle.bell.specs.BellPasses.{IsRingerOf};
    ghost use Rattle.steps.specs.declared.view.Role.{Role};
    ghost use Rattle.work.specs.Board.{IsOf};
    ghost use Rattle.runtime.specs.Clients.{ClientFacts};

    ghost Value = { ClientFacts };

    ghost view = { λ c. record { board = (arc_value c.shared).board; submitter = c.submitter; ring = c.held.ring; tail = c.tail; publishes = length c.ringer.found; posts = c.held.posts } };

    ghost invariant = { λ c. IsOf (arc_value c.shared).board c.submitter × IsRingerOf (arc_value c.shared).bell c.ringer × (c.ringer.tail ≡ c.tail) × (c.submitter.view.role ≡ Role.Submitter c.held.ring) × (c.ringer.ring ≡ c.held.ring) × (c.held.places ≡ widest (arc_value c.shared).board.layout.cells) × (c.listener ≢ None) };
}

impl Client {
    /// The client of a ring that has submitted nothing yet, by the submitter and the ringer of that ring, and the place for its posts.
    pub(crate) fn new(
        shared: Arc<Shared>,
        submitter: Submitter,
        ringer: Ringer,
        held: Held,
        listener: Listener,
    ) -> Client
        requires submitter { IsOf (arc_value shared).board submitter }
        requires ringer { IsRingerOf (arc_value shared).bell ringer × ((ringer.tail ≡ 0) × (ringer.found ≡ [])) }
        requires ring { (submitter.view.role ≡ Role.Submitter held.ring) × (ringer.ring ≡ held.ring) }
        requires places { held.places ≡ widest (arc_value shared).board.layout.cells }
        ensures board { result.board ≡ (arc_value shared).board }
        ensures submitter { result.submitter ≡ submitter }
        ensures ring { result.ring ≡ held.ring }
        ensures tail { (result.tail ≡ 0) × (result.publishes ≡ 0) }
        ensures posts { result.posts ≡ held.posts }
    {
        Client {
            shared,
            submitter,
            ringer,
            tail: 0,
            held,
            listener: Some(listener),
        }
    }

    /// Its ring.
    pub fn ring(&self) -> u16
        ensures { result ≡ self.now.ring }
    {
        self.held.ring()
    }

    /// The request that it submits next.
    pub fn next_request(&self) -> Req
        ensures { result ≡ next_of self.now.submitter self.now.ring }
    {
        self.submitter.next_request()
    }

    /// Submits a batch, in order, or none of it, tells the poller, and gives its first request: the entry i is the i-th after that.
    /// `Full`, `BufferLength` and `Spent` come as from the board, and give the batch back (io_uring_enter(2)).
    pub fn submit_batch(
        &mut self,
        batch: Vec<(Sqe, Vec<u8>)>,
    ) -> Result<Req, (SubmitError, Vec<(Sqe, Vec<u8>)>)>
        ensures same { (self.new.board ≡ self.old.board) × (self.new.ring ≡ self.old.ring) × (self.new.posts ≡ self.old.posts) }
        ensures submitted { IfOk result (λ r. (r ≡ next_of self.old.submitter self.old.ring) × Goes self.old.board self.old.submitter (submits_of self.old.ring r.k batch.items) self.new.submitter) }
        ensures published { IfOk result (λ r. HasPublished (submits (seen_of self.new.submitter) self.old.ring) self.old self.new) }
        ensures unpublished { IfErr result (λ e. (self.new.tail ≡ self.old.tail) × (self.new.publishes ≡ self.old.publishes)) }
        ensures free { IfOk result (λ r. (i : ℕ) → i < length batch.items → IsFree self.old.board.layout.cells (seen_of self.new.submitter) (nth r.ring (r.k + i))) }
        ensures steps { IfOk result (λ r. (n : ℕ) × (n ≤ cells_in self.old.board.layout.cells r.ring + 1) × (LinkedAreReaped (seen_of self.old.submitter) r.ring → n ≡ 0) × Took self.old.submitter.view self.new.submitter.view (n + steps_in batch.items)) }
        ensures refused { IfErr result (λ e. Goes self.old.board self.old.submitter [] self.new.submitter × (e.1 ≡ batch)) }
        ensures reason { IfErr result (λ e. RefusesBatch self.old.board batch.items self.old.ring (next_of self.old.submitter self.old.ring).k self.old.submitter self.new.submitter e.0) }
    {
        match self.shared.board.submit_batch(&mut self.submitter, batch) {
            Ok(req) => {
                self.publish_tail();
                Ok(req)
            }
            Err(refused) => Err(refused),
        }
    }

    /// Where a request stands.
    pub fn look(&mut self, req: Req) -> Phase
        ensures same { (self.new.board ≡ self.old.board) × (self.new.ring ≡ self.old.ring) × (self.new.tail ≡ self.old.tail) × (self.new.publishes ≡ self.old.publishes) × (self.new.posts ≡ self.old.posts) }
        ensures looks { Goes self.old.board self.old.submitter [] self.new.submitter }
        ensures finds { Finds self.old.board req result self.old.submitter self.new.submitter }
    {
        self.shared.board.look(&mut self.submitter, req)
    }

    /// `Runtime::rest` of its runtime.
    pub fn rest(&self) -> Option<u64> {
        self.shared.counters.evened()
    }

    /// Takes the oldest completion of its ring, if there is one (io_uring_peek_cqe(3)).
    pub fn take<R: Wait>(&mut self, rt: &R) -> Option<Completion>
        ensures same { (self.new.board ≡ self.old.board) × (self.new.ring ≡ self.old.ring) × (self.new.tail ≡ self.old.tail) × (self.new.publishes ≡ self.old.publishes) }
        ensures taken { HasTaken self.old self.new result }
        ensures reaped { MatchOption result (Goes self.old.board self.old.submitter [] self.new.submitter) (λ x. Goes self.old.board self.old.submitter (Reap x.req ∷ []) self.new.submitter) }
        ensures completion { IfSome result (λ x. IsCompletion (seen_of self.new.submitter) x.req x × IsReaped (phase (seen_of self.new.submitter) x.req)) }
        ensures once { IfSome result (λ x. HasOnce (seen_of self.new.submitter) x.req) }
    {
        let Some(req) = self.held.next(rt, &self.shared.posts) else {
            return None;
        };
        match self.shared.board.reap(&mut self.submitter, req) {
            Ok(completion) => Some(completion),
            Err(_) => None,
        }
    }

    /// Waits for the next completion of its ring, and takes it (io_uring_wait_cqe(3)). Until one is there it sleeps: for good, where no
    /// request of its ring will be answered any more.
    pub fn wait<R: Wait>(&mut self, rt: &R) -> Completion
        ensures same { (self.new.board ≡ self.old.board) × (self.new.ring ≡ self.old.ring) × (self.new.tail ≡ self.old.tail) × (self.new.publishes ≡ self.old.publishes) }
        ensures taken { HasAwaited self.old self.new result.req }
        ensures reaped { Goes self.old.board self.old.submitter (Reap result.req ∷ []) self.new.submitter }
        ensures completion { IsCompletion (seen_of self.new.submitter) result.req result × IsReaped (phase (seen_of self.new.submitter) result.req) }
        ensures once { HasOnce (seen_of self.new.submitter) result.req }
    {
        for _ in rt.forever() {
            self.await_held(rt, 1);
            if let Some(completion) = self.take(rt) {
                return completion;
            }
        }
        unreachable!()
    }

    /// Waits for the next completion of its ring, for no longer than about `most`, and takes it if there is one
    /// (io_uring_wait_cqe_timeout(3)). Where it finds none it sleeps once, and then looks again: so `None` may come early.
    pub fn wait_timeout<R: Wait>(&mut self, rt: &R, most: Duration) -> Option<Completion>
        ensures same { (self.new.board ≡ self.old.board) × (self.new.ring ≡ self.old.ring) × (self.new.tail ≡ self.old.tail) × (self.new.publishes ≡ self.old.publishes) }
        ensures taken { HasTaken self.old self.new result }
        ensures reaped { MatchOption result (Goes self.old.board self.old.submitter [] self.new.submitter) (λ x. Goes self.old.board self.old.submitter (Reap x.req ∷ []) self.new.submitter) }
        ensures completion { IfSome result (λ x. IsCompletion (seen_of self.new.submitter) x.req x × IsReaped (phase (seen_of self.new.submitter) x.req)) }
        ensures once { IfSome result (λ x. HasOnce (seen_of self.new.submitter) x.req) }
    {
        self.await_one(rt, most);
        self.take(rt)
    }

    /// Submits a batch as `submit_batch` does, and then waits until this many completions can be taken without waiting, of those that
    /// weren't taken before, too (io_uring_submit_and_wait(3)). More than the board's widest ring has cells can't be there at once, so
    /// it waits for no more than that. Where fewer requests of its ring will be answered it sleeps for good.
    pub fn submit_and_wait<R: Wait>(
        &mut self,
        rt: &R,
        batch: Vec<(Sqe, Vec<u8>)>,
        count: usize,
    ) -> Result<Req, (SubmitError, Vec<(Sqe, Vec<u8>)>)>
        ensures same { (self.new.board ≡ self.old.board) × (self.new.ring ≡ self.old.ring) }
        ensures submitted { IfOk result (λ r. (r ≡ next_of self.old.submitter self.old.ring) × Goes self.old.board self.old.submitter (submits_of self.old.ring r.k batch.items) self.new.submitter) }
        ensures published { IfOk result (λ r. HasPublished (submits (seen_of self.new.submitter) self.old.ring) self.old self.new) }
        ensures unpublished { IfErr result (λ e. (self.new.tail ≡ self.old.tail) × (self.new.publishes ≡ self.old.publishes)) }
        ensures found { IfOk result (λ r. (found : List Req) × (self.new.posts ≡ self.old.posts ++ found)) }
        ensures waited { IfOk result (λ r. min count (widest self.old.board.layout.cells) ≤ length self.new.posts) }
        ensures free { IfOk result (λ r. (i : ℕ) → i < length batch.items → IsFree self.old.board.layout.cells (seen_of self.new.submitter) (nth r.ring (r.k + i))) }
        ensures refused { IfErr result (λ e. Goes self.old.board self.old.submitter [] self.new.submitter × (e.1 ≡ batch) × (self.new.posts ≡ self.old.posts)) }
        ensures reason { IfErr result (λ e. RefusesBatch self.old.board batch.items self.old.ring (next_of self.old.submitter self.old.ring).k self.old.submitter self.new.submitter e.0) }
    {
        let req = self.submit_batch(batch)?;
        self.await_held(rt, count);
        Ok(req)
    }

    /// Waits until it holds this many posts, or as many as the widest ring has cells.
    fn await_held<R: Wait>(&mut self, rt: &R, count: usize)
        ensures same { (self.new.board ≡ self.old.board) × (self.new.ring ≡ self.old.ring) × (self.new.tail ≡ self.old.tail) × (self.new.publishes ≡ self.old.publishes) × (self.new.submitter ≡ self.old.submitter) }
        ensures found { (found : List Req) × (self.new.posts ≡ self.old.posts ++ found) }
        ensures enough { min count (widest self.old.board.layout.cells) ≤ length self.new.posts }
    {
        let count = count.min(self.shared.board.widest() as usize);
        if count <= self.held.len() {
            return;
        }
        let Some(listener) = self.listener.take() else {
            unreachable!()
        };
        let listener = await_posts(rt, &self.shared.posts, &mut self.held, count, listener);
        self.listener = Some(listener);
    }

    /// Looks for posts where it holds none. Where it finds none it sleeps once, for no longer than about `most`.
    fn await_one<R: Wait>(&mut self, rt: &R, most: Duration)
        ensures same { (self.new.board ≡ self.old.board) × (self.new.ring ≡ self.old.ring) × (self.new.tail ≡ self.old.tail) × (self.new.publishes ≡ self.old.publishes) × (self.new.submitter ≡ self.old.submitter) }
        ensures found { (found : List Req) × ((self.old.posts ≡ []) ⊎ (found ≡ [])) × (self.new.posts ≡ self.old.posts ++ found) }
    {
        let count = self.shared.board.widest().min(1) as usize;
        if count <= self.held.len() {
            return;
        }
        let Some(listener) = self.listener.take() else {
            unreachable!()
        };
        self.listener = Some(await_posts_at_most(
            rt,
            &self.shared.posts,
            &mut self.held,
            count,
            most,
            listener,
        ));
    }

    /// Tells the poller how many requests were submitted, unless it was told a greater tail.
    fn publish_tail(&mut self)
        ensures same { (self.new.board ≡ self.old.board) × (self.new.ring ≡ self.old.ring) × (self.new.submitter ≡ self.old.submitter) × (self.new.posts ≡ self.old.posts) }
        ensures published { HasPublished (submits (seen_of self.old.submitter) self.old.ring) self.old self.new }
    {
        let tail = self.submitter.next_request().k;
        if self.tail < tail {
            self.publish(tail);
        }
    }

    /// Tells the poller this tail, and wakes it where it sleeps.
    fn publish(&mut self, tail: u64)
        requires { self.old.tail ≤ tail }
        ensures { self.new ≡ record self.old { tail = tail; publishes = suc self.old.publishes } }
    {
        let wake = self.shared.bell.publish(&mut self.ringer, tail);
        self.tail = tail;
        self.shared.bell.ring(wake);
    }

    /// Tells the poller to end, where this is the client of ring 0.
    pub(crate) fn publish_end(&mut self)
        ensures same { without_tail self.new ≡ without_tail self.old }
        ensures published { self.old.ring ≡ 0 → 9223372036854775808 ≤ self.new.tail }
    {
        if self.held.ring() == 0 && self.tail < END {
            self.publish(self.tail + END);
        }
    }

    /// Its submitter's pass. It gives up what it shares.
    pub(crate) fn into_submitter(self) -> Submitter
        ensures pass { result ≡ self.submitter }
        ensures own { IsOf self.board result }
    {
        let Client { submitter, .. } = self;
        submitter
    }
}
