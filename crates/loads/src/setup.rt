//! A runtime and the load that it is put under.
use std::fmt;
use std::time::Duration;

/// The cells of a ring.
const CELLS: u32 = 512;

/// A load, of units. One is a NOP; a WRITE and a READ that is linked to it; a READ of an empty pipe and a cancel; a TIMEOUT and a
/// TIMEOUT_REMOVE; a byte from one client to the other; a byte there and back. Or all kinds are mixed, from this seed.
#[derive(Clone, Copy, PartialEq, Eq, Debug)]
pub(crate) enum Kind {
    Nop,
    Pair,
    ReadCancel,
    TimeoutRemove,
    Byte,
    Echo,
    Mixed { seed: u64 },
}

/// A load, how many units of it each client has in flight, and the runtime that serves it, with one or two clients at work.
#[derive(Clone, Copy)]
pub(crate) struct Setup {
    pub kind: Kind,
    pub depth: u32,
    pub workers: u32,
    pub clients: u16,
    pub cells: u32,
    /// How many READs of ring 1 wait all the time, on other pipes, and how long the client of ring 0 sleeps before each round.
    pub reads: u32,
    pub pause: Duration,
    /// The places of a completion ring, if these aren't twice the cells.
    pub posts: Option<u32>,
    /// After how many idle turns in a row the poller sleeps, and in how many turns the clock advances by one tick; with 0 it stands still.
    pub idle: u32,
    pub every: u32,
}

impl Setup {
    /// This many clients at work, one or two.
    pub fn new(kind: Kind, depth: u32, workers: u32, clients: u16) -> Setup {
        Setup {
            kind,
            depth,
            workers,
            clients,
            cells: CELLS,
            reads: 0,
            pause: Duration::ZERO,
            posts: None,
            idle: 4096,
            every: 0,
        }
    }
}

impl fmt::Display for Setup {
    fn fmt<W: fmt::Write>(&self, f: &mut fmt::Formatter<W>) -> fmt::Result {
        let (kind, depth, workers) = (self.kind, self.depth, self.workers);
        let (clients, cells) = (self.clients, self.cells);
        write!(f, "{kind:?}, {depth} in flight, workers {workers}, ")?;
        write!(f, "clients {clients}, cells {cells}")?;
        match self.reads {
            0 => Ok(()),
            reads => write!(f, ", beside {reads} READs"),
        }
    }
}
