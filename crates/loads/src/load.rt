//! What a client submits, and what it makes of the completions.
use crate::setup::Setup;
use anyhow::Result;
use board::Completion;
use entry::Sqe;
use std::alloc::{AllocError, Global};
use std::fmt;

/// Entries with their buffers.
pub(crate) type Batch = Vec<(Sqe, Vec<u8>)>;

/// How many requests were submitted, how many completions were taken, and how many requests were reported.
#[derive(Clone, Copy, Default)]
pub(crate) struct Counts {
    pub submitted: u64,
    pub taken: u64,
    pub reported: u64,
}

impl Counts {
    /// Both together.
    pub fn plus(self, other: Counts) -> Counts {
        Counts {
            submitted: self.submitted.saturating_add(other.submitted),
            taken: self.taken.saturating_add(other.taken),
            reported: self.reported.saturating_add(other.reported),
        }
    }
}

/// Why a load ends early, and the number of a request and its reply, or 0. It owns no text, which no request that is right should
/// have to move.
#[derive(Clone, Copy)]
pub(crate) struct Fault(pub &'static str, pub u64, pub i32);

impl fmt::Display for Fault {
    fn fmt<W: fmt::Write>(&self, f: &mut fmt::Formatter<W>) -> fmt::Result {
        let (why, number, reply) = (self.0, self.1, self.2);
        write!(f, "{why}: request {number}, reply {reply}")
    }
}

/// The load of one client.
pub(crate) trait Load: Drop {
    /// That of the client of a ring that has submitted nothing yet.
    fn new(alloc: Global, ring: u16, setup: &Setup) -> Result<Self, AllocError>;

    /// Begins a round: of this many units, or of this many turns.
    fn begin(&mut self, count: u64);

    /// Whether its round is over, as asked once in each turn.
    fn is_over(&mut self) -> bool;

    /// The next batch, which may be empty, and for how many completions its client then blocks: no more than surely come.
    fn next_batch(&mut self) -> Result<(Batch, usize), AllocError>;

    /// Notes that the batch was submitted.
    fn sent(&mut self) -> Result<(), Fault> {
        Ok(())
    }

    /// Takes a batch back that found no room.
    fn refused(&mut self, batch: Batch);

    /// Notes a completion that was taken. It is refused where it has another reply than its request is for, or other bytes.
    fn take(&mut self, completion: Completion) -> Result<(), Fault>;

    /// Notes a line of the report, and whether the end cut it off.
    fn report(&mut self, completion: &Completion, is_cut: bool) -> Result<()>;
}
