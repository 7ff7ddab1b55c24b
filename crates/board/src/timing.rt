//! What the poller does with the clock and with timers.
ghost use Rattle.std.specs.Prelude.{◌≡◌, ◌⊎◌, ◌+◌, ◌-◌, ◌*◌, ◌≤◌, ℕ, true, false, [], ◌∷◌, length, IfOk, IfErr};
ghost use Rattle.history.specs.declared.event.Event.TheVariants.{Tick};
ghost use Rattle.history.specs.declared.req.Req.{Req as Request};
ghost use Rattle.history.specs.{IsLinkTimeout, IsTarget, is_timeout, previous, submits, IsPlacedAs};
ghost use Rattle.steps.specs.{cells_in, freed};
ghost use Rattle.work.specs.{IsOf, seen_of, Took};
ghost use Rattle.board.specs.declared.poller.Arming.TheVariants.{Armed, NotHeld, NotTimer, Shut};
ghost use Rattle.board.specs.declared.poller.Counting.TheVariants.{Counted, Fewer, NotCounted};
ghost use Rattle.board.specs.declared.poller.Expiry.TheVariants.{Early, Expired, NotArmed};
ghost use Rattle.board.specs.declared.poller.Firing.TheVariants.{Missed, TargetDone};
ghost use Rattle.board.specs.declared.poller.Settling.TheVariants.{Settled, TargetOpen};
ghost use Rattle.board.specs.{FoundHeld, Goes, IsUnheld, Stepped, Paid, Spends, IsPast, HasRung, polled_by, HasCounted, HasExpired, HasFewer, HasFired, HasSettled, IsArmed, IsArmedFor, IsDueLinked, IsEarly, IsNoneToExpire, IsNoneToSettle, IsNoTimer, IsShutTimer, IsTargetDone, IsTargetOpen, IsUnarmed, IsUncounted, WasClear, armed_by, counted_by, expired_by, fired_by, settled_by};

use crate::board::Board;
use crate::error::ClockEnd;
use crate::poller::{Arming, Counting, Expiry, Firing, Polled, Poller, Settling};
use history::Req;

impl Board {
    /// Sets the clock on to this tick. It doesn't go back, and ends at tick 2,147,483,647.
    pub fn tick(&self, poller: &mut Poller, to: u32) -> Result<(), ClockEnd>
        requires { IsOf self.now poller.old }
        ensures goes { IfOk result (λ u. Goes self.now poller.old (Tick to ∷ []) poller.new) }
        ensures steps { IfOk result (λ u. Took poller.old.view poller.new.view 1) }
        ensures refused { IfErr result (λ e. (poller.new ≡ poller.old) × IsPast (seen_of poller.old) to) }
        ensures alone { (q : Request) → freed poller.new.view.seen q ≡ freed poller.old.view.seen q }
    {
        poller.tick(self, to)
    }

    /// Arms a timer that waits and may start: a TIMEOUT, or a LINK_TIMEOUT whose target may start. Its deadline counts from the
    /// clock's time now. Like `release` it looks at the requests that the poller hasn't seen yet, up to this one, and at those
    /// that are in the way.
    pub fn arm(&self, poller: &mut Poller, req: Req) -> Arming
        requires { IsOf self.now poller.old }
        ensures goes { Goes self.now poller.old (armed_by result req) poller.new }
        ensures armed { (d : ℕ) → result ≡ Armed d → IsArmedFor (seen_of poller.new) req d × FoundHeld self.now.layout.cells req poller.old poller.new }
        ensures clear { (d : ℕ) → result ≡ Armed d → WasClear req poller.old poller.new }
        ensures not_held { result ≡ NotHeld → IsUnheld poller.new.view.seen req × ((length self.now.layout.cells ≤ req.ring) ⊎ Stepped self.now.layout.cells req poller.old poller.new) }
        ensures not_timer { result ≡ NotTimer → IsNoTimer poller.new.view.seen req × Stepped self.now.layout.cells req poller.old poller.new }
        ensures shut { result ≡ Shut → IsShutTimer self.now.layout.cells req poller.old poller.new }
        ensures steps { Paid poller.old.view poller.new.view 0 (4 * submits (seen_of poller.new) req.ring + 5) }
        ensures alone { (q : Request) → freed poller.new.view.seen q ≡ freed poller.old.view.seen q }
    {
        match self.grid.locate(req) {
            Some(cell) => poller.arm(self, cell, req),
            None => Arming::NotHeld,
        }
    }

    /// Answers a TIMEOUT with -62 (ETIME), where it is armed and its deadline has come (io_uring_prep_timeout(3)).
    pub fn expire(&self, poller: &mut Poller, req: Req) -> Expiry
        requires { IsOf self.now poller.old }
        ensures goes { Goes self.now poller.old (expired_by result req) poller.new }
        ensures expired { result ≡ Expired → HasExpired (seen_of poller.new) req }
        ensures early { result ≡ Early → IsEarly (seen_of poller.new) req × IsPlacedAs (seen_of poller.new) req is_timeout true × Stepped self.now.layout.cells req poller.old poller.new }
        ensures not_armed { result ≡ NotArmed → IsNoneToExpire (seen_of poller.new) req × ((length self.now.layout.cells ≤ req.ring) ⊎ Stepped self.now.layout.cells req poller.old poller.new) }
        ensures steps { Paid poller.old.view poller.new.view 0 2 }
        ensures alone { (q : Request) → freed poller.new.view.seen q ≡ freed poller.old.view.seen q }
    {
        match self.grid.locate(req) {
            Some(cell) => poller.expire(self, cell, req),
            None => Expiry::NotArmed,
        }
    }

    /// Answers a TIMEOUT that counts completions with 0, where it is armed and as many later requests of its ring have replied
    /// (io_uring_prep_timeout(3)). It looks at the later requests in order, up to the first that wasn't submitted: an armed timer
    /// keeps its cell, so they are fewer than the cells of the ring.
    pub fn count(&self, poller: &mut Poller, req: Req) -> Counting
        requires { IsOf self.now poller.old }
        ensures goes { Goes self.now poller.old (counted_by result req) poller.new }
        ensures counted { result ≡ Counted → HasCounted (seen_of poller.new) req }
        ensures fewer { result ≡ Fewer → HasFewer (seen_of poller.old) req }
        ensures not_counted { result ≡ NotCounted → IsUncounted (seen_of poller.new) req × Stepped self.now.layout.cells req poller.old poller.new }
        ensures not_armed { result ≡ Counting.NotArmed → IsUnarmed (seen_of poller.new) req × ((length self.now.layout.cells ≤ req.ring) ⊎ Stepped self.now.layout.cells req poller.old poller.new) }
        ensures steps { Paid poller.old.view poller.new.view 0 (cells_in self.now.layout.cells req.ring + 1) × Spends self.now.layout.cells req poller.old.view poller.new.view 2 (cells_in self.now.layout.cells req.ring - 1) }
        ensures alone { (q : Request) → freed poller.new.view.seen q ≡ freed poller.old.view.seen q }
    {
        match self.grid.locate(req) {
            Some(cell) => poller.count(self, cell, req),
            None => Counting::NotArmed,
        }
    }

    /// Fires a LINK_TIMEOUT that is armed and whose deadline has come: its target is answered with -125 (ECANCELED), or continues
    /// where a worker runs it, and it is answered with -62 (ETIME) (io_uring_prep_link_timeout(3)).
    pub fn fire(&self, poller: &mut Poller, req: Req) -> Firing
        requires { IsOf self.now poller.old }
        ensures goes { Goes self.now poller.old (fired_by result req) poller.new }
        ensures took { result ≡ Firing.Took → HasFired (seen_of poller.new) req × IsTarget (seen_of poller.new) req (previous req) }
        ensures missed { result ≡ Missed → HasFired (seen_of poller.new) req × IsTarget (seen_of poller.new) req (previous req) }
        ensures target_done { result ≡ TargetDone → IsTargetDone (seen_of poller.new) req }
        ensures early { result ≡ Firing.Early → IsEarly (seen_of poller.new) req × IsLinkTimeout (seen_of poller.new) req × Stepped self.now.layout.cells req poller.old poller.new }
        ensures not_armed { result ≡ Firing.NotArmed → IsNoneToSettle (seen_of poller.new) req × ((length self.now.layout.cells ≤ req.ring) ⊎ Stepped self.now.layout.cells req poller.old poller.new) }
        ensures steps { Paid poller.old.view poller.new.view 0 4 }
        ensures alone { (q : Request) → freed poller.new.view.seen q ≡ freed poller.old.view.seen q }
    {
        match self.grid.locate(req) {
            Some(cell) => poller.fire(self, cell, req),
            None => Firing::NotArmed,
        }
    }

    /// Answers a LINK_TIMEOUT whose target replied before it ran out, with -125 (ECANCELED)
    /// (io_uring_prep_link_timeout(3)).
    pub fn settle(&self, poller: &mut Poller, req: Req) -> Settling
        requires { IsOf self.now poller.old }
        ensures goes { Goes self.now poller.old (settled_by result req) poller.new }
        ensures settled { result ≡ Settled → HasSettled (seen_of poller.new) req }
        ensures target_open { result ≡ TargetOpen → IsTargetOpen self.now.layout.cells req poller.old poller.new × IsArmed (seen_of poller.new) req }
        ensures not_armed { result ≡ Settling.NotArmed → IsNoneToSettle (seen_of poller.new) req × ((length self.now.layout.cells ≤ req.ring) ⊎ Stepped self.now.layout.cells req poller.old poller.new) }
        ensures steps { Paid poller.old.view poller.new.view 0 3 }
        ensures alone { (q : Request) → freed poller.new.view.seen q ≡ freed poller.old.view.seen q }
    {
        match self.grid.locate(req) {
            Some(cell) => poller.settle(self, cell, req),
            None => Settling::NotArmed,
        }
    }

    /// Does what is to be done with an armed timer: what `expire`, `count`, `fire` and `settle` do. It answers a TIMEOUT whose deadline
    /// has come or that has counted enough, and a LINK_TIMEOUT whose target has replied. It fires one whose deadline has come, where
    /// `may_fire` says that there is room for two answers: that of its target, and its own.
    pub fn poll_timer(&self, poller: &mut Poller, req: Req, may_fire: bool) -> Polled
        requires { IsOf self.now poller.old }
        ensures goes { Goes self.now poller.old (polled_by result req) poller.new }
        ensures expired { result ≡ Polled.Expired → HasExpired (seen_of poller.new) req }
        ensures counted { result ≡ Polled.Counted → HasCounted (seen_of poller.new) req }
        ensures took { result ≡ Polled.Took → HasRung may_fire req poller.new }
        ensures missed { result ≡ Polled.Missed → HasRung may_fire req poller.new }
        ensures settled { result ≡ Polled.Settled → HasSettled (seen_of poller.new) req }
        ensures early { result ≡ Polled.Early → IsEarly (seen_of poller.new) req × IsPlacedAs (seen_of poller.new) req is_timeout true × IsUncounted (seen_of poller.new) req × Stepped self.now.layout.cells req poller.old poller.new }
        ensures fewer { result ≡ Polled.Fewer → HasFewer (seen_of poller.old) req × IsEarly (seen_of poller.old) req }
        ensures target_open { result ≡ Polled.TargetOpen → IsTargetOpen self.now.layout.cells req poller.old poller.new × IsEarly (seen_of poller.new) req }
        ensures due { result ≡ Polled.Due → (may_fire ≡ false) × IsTargetOpen self.now.layout.cells req poller.old poller.new × IsDueLinked (seen_of poller.new) req }
        ensures not_armed { result ≡ Polled.NotArmed → IsUnarmed (seen_of poller.new) req × ((length self.now.layout.cells ≤ req.ring) ⊎ Stepped self.now.layout.cells req poller.old poller.new) }
        ensures steps { Paid poller.old.view poller.new.view 0 (cells_in self.now.layout.cells req.ring + 3) }
        ensures alone { (q : Request) → freed poller.new.view.seen q ≡ freed poller.old.view.seen q }
    {
        match self.grid.locate(req) {
            Some(cell) => poller.poll_timer(self, cell, req, may_fire),
            None => Polled::NotArmed,
        }
    }
}
