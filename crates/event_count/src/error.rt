//! Why an event count can't be made.
use std::alloc::{AllocError, AllocFailed};
use thiserror::Error;

/// Why an event count can't be made.
#[derive(Clone, Copy, PartialEq, Eq, Debug, Error)]
pub enum EventCountError {
    /// More than 1,024 waiters, or notifiers.
    #[error("more than 1024 waiters, or notifiers")]
    BadShape,
    /// Its room wasn't found.
    #[error("out of memory")]
    Memory,
}

impl From<AllocError> for EventCountError {
    ghost use Rattle.std.specs.Prelude.{◌≡◌};
    ghost use Rattle.event_count.specs.declared.error.EventCountError.TheVariants.{Memory};

    ghost from_gives = { λ _ e. e ≡ Memory };

    fn from(_error: AllocError) -> EventCountError {
        EventCountError::Memory
    }
}

impl<T: Drop> From<AllocFailed<T>> for EventCountError {
    ghost use Rattle.std.specs.Prelude.{◌≡◌};
    ghost use Rattle.event_count.specs.declared.error.EventCountError.TheVariants.{Memory};

    ghost from_gives = { λ _ e. e ≡ Memory };

    fn from(_error: AllocFailed<T>) -> EventCountError {
        EventCountError::Memory
    }
}
