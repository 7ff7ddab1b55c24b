//! Why a one-thread ring refuses.
ghost use Rattle.std.specs.Prelude.{◌≡◌};

use std::alloc::AllocError;
use thiserror::Error;

/// Memory ran out.
#[derive(Clone, Copy, PartialEq, Eq, Debug, Error)]
#[error("out of memory")]
pub struct Memory;

/// Why an event was refused.
#[derive(Clone, Copy, PartialEq, Eq, Debug, Error)]
pub enum Refused {
    /// The event may not come next.
    #[error("the event is not allowed")]
    NotAllowed,
    /// Memory ran out; the event may come next.
    #[error("out of memory")]
    Memory,
}
