//! Clocks: who says what time it is.
ghost use Rattle.std.specs.Prelude.{◌≡◌, List, ◌∷◌, Option, None};
ghost use Rattle.history.specs.declared.event.Event.{Event};
ghost use Rattle.history.specs.declared.req.Req.{Req as Request};
ghost use Rattle.history.specs.Legal.{Legal, Setup};
ghost use Rattle.history.specs.Ticked.{counts_tick};
ghost use Rattle.controls.specs.Clocks.{Advances};

use board::Phase;
use history::Req;

/// Asked by the poller once a turn. The board's clock is set to what `advance` answers, unless that is before its time or after
/// its end. Nothing else sets it.
pub trait Clock {
    /// The request for which `ask` asks.
    ghost asked: { Self → Option Request };

    /// The clock may stand so where this has happened, the newest event first. A clock of which no one wants to know says nothing.
    ghost follows: { Self → List Event → Type 0 } = { λ _ _. Unit {0} };

    /// The request whose phase it wants to know, if any.
    fn ask(&self) -> Option<Req>
        ensures { result ≡ asked self.now };

    /// The next time of the clock in ticks, if it advances. `now` is the board's time, and `phase` that of the request that it asked
    /// for.
    fn advance(&mut self, now: u32, phase: Option<Phase>) -> Option<u32>
        ensures { Advances (follows self.old) (follows self.new) (asked self.old) now phase result };

    /// What does not set the clock, the clock need not know of.
    ghost stays: { (c : Self) (s : Setup) (e : Event) (h : List Event) → Legal s (e ∷ h) → counts_tick e ≡ 0 → follows c h → follows c (e ∷ h) };
}

/// A clock that asks for nothing and never advances.
#[derive(Clone, Copy)]
pub struct NoClock;

impl Clock for NoClock {
    ghost asked = { λ _. None };

    ghost stays = { λ _ _ _ _ _ _ _. tt };

    fn ask(&self) -> Option<Req>
        ensures { result ≡ None }
    {
        None
    }

    fn advance(&mut self, _now: u32, _phase: Option<Phase>) -> Option<u32>
        ensures { result ≡ None }
    {
        None
    }
}
