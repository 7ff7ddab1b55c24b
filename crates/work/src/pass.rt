//! What every pass can do: it looks, tells what it has seen, and hears what another one has seen.
ghost use Rattle.std.specs.Prelude.{◌≡◌, []};
ghost use Rattle.work.specs.Passes.{Pass as Knowledge, CanReach};
ghost use Rattle.steps.specs.{claim_at, Looks, Shown, IsStep, messenger, hearing};

use std::marker::Model;
use steps::{TableSeat, Words};

/// What a pass has seen, on its way to another pass. Contracts see what it carries.
pub struct Messenger {
    seat: TableSeat,
}

impl Model for Messenger {
    ghost use Rattle.work.specs.Passes.{Pass, pass_of, IsMessengerSeat};

    ghost Value = { Pass };

    ghost view = { λ m. pass_of m.seat };

    ghost invariant = { λ m. IsMessengerSeat m.seat };
}

impl Messenger {
    ghost use Rattle.work.specs.Passes.{pass_of, IsMessengerSeat};

    /// The messenger with this seat.
    pub fn new(seat: TableSeat) -> Messenger
        requires { IsMessengerSeat seat }
        ensures { result ≡ pass_of seat }
    {
        Self { seat }
    }

    /// Its seat.
    pub fn into_seat(self) -> TableSeat
        ensures seat { IsMessengerSeat result }
        ensures value { pass_of result ≡ self }
    {
        let Messenger { seat } = self;
        seat
    }
}

/// A pass of a board: the poller's, a submitter's or a worker's.
pub trait Pass {
    /// What the pass knows.
    ghost knows: { Self → Knowledge };

    /// Loads the claim word of the cell.
    fn load(&mut self, words: &Words, cell: usize) -> u64
        requires { CanReach words.now.table_id (knows self.old) cell }
        ensures table { (knows self.new).table ≡ (knows self.old).table }
        ensures took { (knows self.new).took ≡ (knows self.old).took }
        ensures woken { (knows self.new).woken ≡ (knows self.old).woken }
        ensures looks { Looks (knows self.old).view (knows self.new).view }
        ensures shown { Shown (knows self.old).view.layout.cells (knows self.new).view.seen cell result }
        ensures step { IsStep (claim_at cell) result (knows self.old).view (knows self.new).view };

    /// A messenger with all that this pass has seen.
    fn tell(&mut self, words: &Words) -> Messenger
        requires { CanReach words.now.table_id (knows self.old) 0 }
        ensures same { knows self.new ≡ knows self.old }
        ensures told { result ≡ record { table = (knows self.old).table; view = messenger (knows self.old).view; took = []; woken = [] } };

    /// Hears the messenger. What it carries stands in what this pass has seen from its next look on.
    fn hear(&mut self, words: &Words, messenger: Messenger)
        requires reach { CanReach words.now.table_id (knows self.old) 0 }
        requires messenger { messenger.table ≡ words.now.table_id }
        ensures heard { knows self.new ≡ record { table = (knows self.old).table; view = hearing (knows self.old).view messenger.view; took = (knows self.old).took; woken = (knows self.old).woken } };
}
