//! Why there is no queue, and why a queue isn't gathered.
ghost use Rattle.std.specs.Prelude.{◌≡◌};

use crate::pass::ReadyPass;
use crate::queue::ReadyQueue;
use std::alloc::AllocError;
use thiserror::Error;

/// The room for a queue wasn't found.
#[derive(Clone, Copy, PartialEq, Eq, Debug, Error)]
#[error("out of memory")]
pub struct Memory;

impl From<AllocError> for Memory {
    fn from(_error: AllocError) -> Memory {
        Memory
    }
}

/// Why a queue isn't gathered.
#[derive(Clone, Copy, PartialEq, Eq, Debug, Error)]
pub enum GatherError {
    /// A pass of the queue is not among those handed in.
    #[error("a pass is missing")]
    Missing,
    /// The room for the answer wasn't found.
    #[error("out of memory")]
    Memory,
}

/// A queue that isn't gathered, with all that was handed in.
#[derive(Drop)]
pub struct Ungathered {
    pub error: GatherError,
    pub queue: ReadyQueue,
    pub passes: Vec<ReadyPass>,
}
