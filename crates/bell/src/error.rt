//! Why a bell can't be made.
use std::alloc::{AllocError, AllocFailed};
use thiserror::Error;

/// Why a bell can't be made.
#[derive(Clone, Copy, PartialEq, Eq, Debug, Error)]
pub enum BellError {
    /// The number of rings is outside 1 to 16.
    #[error("the number of rings is outside 1 to 16")]
    BadShape,
    /// Its room wasn't found.
    #[error("out of memory")]
    Memory,
}

impl From<AllocError> for BellError {
    ghost use Rattle.std.specs.Prelude.{◌≡◌};
    ghost use Rattle.bell.specs.declared.error.BellError.TheVariants.{Memory};

    ghost from_gives = { λ _ e. e ≡ Memory };

    fn from(_error: AllocError) -> BellError {
        BellError::Memory
    }
}

impl<T: Drop> From<AllocFailed<T>> for BellError {
    ghost use Rattle.std.specs.Prelude.{◌≡◌};
    ghost use Rattle.bell.specs.declared.error.BellError.TheVariants.{Memory};

    ghost from_gives = { λ _ e. e ≡ Memory };

    fn from(_error: AllocFailed<T>) -> BellError {
        BellError::Memory
    }
}
