//! What a set of timers promises, however it is kept.
ghost use Rattle.std.specs.Prelude.{◌≡◌, ℕ, Option, IsTrue, IsSome, OnOk, OnErr, ◌↔◌};
ghost use Rattle.history.specs.declared.req.Req.{Req};
ghost use Rattle.wheel.specs.Deadlines.{armed, dropped, IsFirstDue};

use crate::error::Memory;
use history::Req;

/// Armed timers: a map from requests to deadlines, in ticks.
/// It is seen as a function, so that each way to keep it meets the same clauses.
pub trait TimerSet {
    /// The deadline of each request that has one.
    ghost deadline: { Self → Req → Option ℕ };

    /// Arms a timer. The request's old deadline, if it has one, is forgotten. Want of memory changes nothing.
    fn arm(&mut self, req: Req, at: u32) -> Result<(), Memory>
        ensures ok { OnOk result (deadline self.new ≡ armed (deadline self.old) req at) }
        ensures err { OnErr result (deadline self.new ≡ deadline self.old) };

    /// Forgets the timer of a request. Answers whether it had one.
    fn drop_timer(&mut self, req: Req) -> bool
        ensures there { IsTrue result ↔ IsSome (deadline self.old req) }
        ensures dropped { deadline self.new ≡ dropped (deadline self.old) req };

    /// A timer whose deadline is at or below `now`, one of least deadline, where there is one.
    fn due(&self, now: u32) -> Option<Req>
        ensures { IsFirstDue (deadline self.now) now result };
}
