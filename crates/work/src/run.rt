//! What a run ends with.
use entry::Cqe;

/// What a run ended with.
#[derive(Drop)]
pub enum Ran {
    /// The request was answered, with this completion.
    Replied { cqe: Cqe },
    /// The request was put back to Ready. Only READ, WRITE, CLOSE, POLL_ADD and SPLICE are, of which an fd is an end of one
    /// of the board's pipes.
    Parked(Parked),
}

/// Why a request was put back.
#[derive(Clone, Copy, PartialEq, Eq, Debug)]
pub enum Parked {
    /// There was no answer now: a READ of an empty pipe, a WRITE without room, a POLL_ADD without an event, a SPLICE without
    /// bytes or without room (read(2), write(2), poll(2), splice(2)).
    NotReady,
    /// Its pipe, or one of its two pipes, was out with another worker.
    PipeBusy,
}
