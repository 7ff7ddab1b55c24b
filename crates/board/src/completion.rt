//! What comes back of a request.
ghost use Rattle.std.specs.Prelude.{◌≡◌};

use entry::Cqe;
use history::Req;
use std::marker::Model;

/// A request's completion, and the buffer that was handed in with it. Of a READ the first `res` bytes are the data, and
/// the rest is as it was; other buffers come back unchanged.
#[derive(Drop, PartialEq, Eq, Debug)]
pub struct Completion {
    pub req: Req,
    pub cqe: Cqe,
    pub buffer: Vec<u8>,
}

/// The requests that were not reaped, by ring, then in the order of submission.
#[derive(Drop)]
pub struct Report {
    lines: Vec<(Completion, bool)>,
}

impl Model for Report {
    ghost use Rattle.std.specs.Prelude.{List, Bool};
    ghost use Rattle.board.specs.declared.completion.Completion.{Completion};

    ghost Value = { List (Completion × Bool) };

    ghost view = { λ r. r.lines.items };
}

impl Report {
    /// The report with these lines.
    pub(crate) fn new(lines: Vec<(Completion, bool)>) -> Report
        ensures { result ≡ lines.items }
    {
        Report { lines }
    }

    /// Each request that was not reaped: its completion, and whether the end cut it off, with -125 (ECANCELED).
    pub fn lines(&self) -> &[(Completion, bool)]
        ensures { result.now ≡ self.now }
    {
        self.lines.as_slice()
    }
}
