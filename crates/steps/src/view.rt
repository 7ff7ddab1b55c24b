//! What a seat of the table knows. All of it exists in proofs alone: no value of these types is made.
use crate::line::Line;
use history::Req;
use std::collections::LinkedList;

/// How many cells each ring has, and how many bytes each pipe holds.
pub struct Layout {
    pub cells: LinkedList<u64>,
    pub caps: LinkedList<u32>,
}

/// Whose seat it is.
pub enum Role {
    /// The poller, which also stands for the submitters of the rings from this one on, until they are cut off it.
    Poller(u64),
    /// The submitter of this ring.
    Submitter(u64),
    /// The submitter of the request's ring, while it has the slot of the request's cell: before the Submit, or the Reap.
    /// It is a role of its own, so that who has all parts of the table knows that no slot is out.
    Lending(Req),
    /// A worker without a request.
    Idle,
    /// The worker that runs the request.
    Busy(Req),
    /// The worker that has answered the request, and still has its pipe, or both of them.
    Leaving(Req),
    /// The worker that has answered the request, and of its pipes still has this one alone.
    Parting { req: Req, pipe: u64 },
    /// A seat that another one took in.
    Spent,
}

/// One step of a seat: its word, the value found there (or stored), and the journal after it.
pub struct Step {
    pub word: u64,
    pub found: u64,
    pub seen: LinkedList<Line>,
}

/// What a seat had seen that was taken in, and whose it was.
pub struct Heard {
    pub role: Role,
    pub seen: LinkedList<Line>,
}

/// What a seat knows.
pub struct View {
    pub layout: Layout,
    pub role: Role,
    /// All parts together are 2^63: who has them all has all passes.
    pub parts: u64,
    /// The journal as far as the seat has seen it, the newest line first.
    pub seen: LinkedList<Line>,
    /// What other seats had seen that told this one. Its next look takes them in.
    pub heard: LinkedList<Heard>,
    /// Its steps, the newest first.
    pub steps: LinkedList<Step>,
}
