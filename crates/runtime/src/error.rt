//! Why the runtime says no.
use std::alloc::AllocError;
use thiserror::Error;

/// The room wasn't found.
#[derive(Clone, Copy, PartialEq, Eq, Debug, Error)]
#[error("out of memory")]
pub struct Memory;

impl From<AllocError> for Memory {
    fn from(_error: AllocError) -> Memory {
        Memory
    }
}

impl From<outbox::Memory> for Memory {
    fn from(_error: outbox::Memory) -> Memory {
        Memory
    }
}

/// Why a runtime can't be started. Threads that were started are stopped and joined.
#[derive(Clone, Copy, PartialEq, Eq, Debug, Error)]
pub enum StartError {
    /// The shape is outside its limits.
    #[error("the shape is outside its limits")]
    BadShape,
    /// Its room wasn't found.
    #[error("out of memory")]
    Memory,
    /// A thread couldn't be made, for want of memory too.
    #[error("a thread can't be made")]
    Thread,
}

/// Why a runtime isn't ended. It comes back with its clients.
#[derive(Clone, Copy, PartialEq, Eq, Debug, Error)]
pub enum JoinError {
    /// A client of the runtime is not among those handed in.
    #[error("a client is missing")]
    Missing,
    /// The report's room wasn't found.
    #[error("out of memory")]
    Memory,
    /// The board is still shared, though all threads have ended.
    #[error("the board is still shared")]
    Shared,
}
