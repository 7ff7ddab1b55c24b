//! What the journal of the table is made of.
use history::{Event, Req};

/// Which request a worker laid down with the pipe that it gave back.
#[derive(Clone, Copy)]
pub enum Laid {
    /// None: those that lie there stay.
    NoRequest,
    /// Its own, after those that lie there.
    Behind,
    /// Its own alone: there was no place, and all that lay there went out with the worker.
    Alone,
}

/// A line of the journal: an event, or what else a seat did that others can tell. No value of it is made.
pub enum Line {
    /// An event of the history.
    Did(Event),
    /// The request went from Held to Ready.
    Freed(Req),
    /// The submitter stored `value` in the word `word`, a note word of the request's cell, and took the cell's slot:
    /// to fill it before the Submit, or to empty it before the Reap.
    Lent { req: Req, word: u64, value: u64 },
    /// The submitter stored `value` in another note word of the request's cell.
    Noted { req: Req, word: u64, value: u64 },
    /// The worker of the request took the pipe.
    Hold { req: Req, pipe: u64 },
    /// The worker of the request gave the pipe back, and may have laid its request down there.
    Free { req: Req, pipe: u64, laid: Laid },
}
