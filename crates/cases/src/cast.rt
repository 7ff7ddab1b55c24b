//! The passes of a board while a case is played.
ghost use Rattle.std.specs.Prelude.{◌≡◌};

use board::{Busy, Poller, Submitter, Worker};

/// A worker with a request, which it puts back when it is let go.
pub struct Away<'a> {
    pub busy: Busy<'a>,
}

impl Drop for Away<'_> {
    fn drop(self) {
        let Away { busy } = self;
        busy.park();
    }
}

impl<'a> Away<'a> {
    /// The worker with its request.
    pub fn into_busy(self) -> Busy<'a>
        ensures { result ≡ self.entry.busy }
    {
        let Away { busy } = self;
        busy
    }
}

/// All passes of a board. A worker stands at its number among those without a request, or among those with one.
#[derive(Drop)]
pub struct Cast<'a> {
    pub poller: Poller,
    pub submitters: Vec<Submitter>,
    pub idle: Vec<Option<Worker>>,
    pub busy: Vec<Option<Away<'a>>>,
}

/// All passes of a board, none of which has a request.
#[derive(Drop)]
pub struct Troop {
    pub poller: Poller,
    pub submitters: Vec<Submitter>,
    pub workers: Vec<Worker>,
}
