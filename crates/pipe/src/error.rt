//! Why a pipe can't be made.
ghost use Rattle.std.specs.Prelude.{◌≡◌};
ghost use Rattle.pipe.specs.declared.error.PipeError.TheVariants.{Memory};

use std::alloc::AllocError;
use thiserror::Error;

/// Why a pipe can't be made.
#[derive(Clone, Copy, PartialEq, Eq, Debug, Error)]
pub enum PipeError {
    /// The capacity is 0 or above 65,536.
    #[error("the capacity of a pipe is 1 to 65536 bytes")]
    BadCapacity,
    /// The room for the bytes wasn't found.
    #[error("out of memory")]
    Memory,
}

impl From<AllocError> for PipeError {
    ghost from_gives = { λ _ e. e ≡ Memory };

    fn from(_e: AllocError) -> PipeError {
        PipeError::Memory
    }
}
