//! Why a completion ring says no.
ghost use Rattle.std.specs.Prelude.{◌≡◌};
ghost use Rattle.compring.specs.declared.error.PostError.TheVariants.{Memory};

use std::alloc::AllocError;
use thiserror::Error;

/// Why a completion ring can't be made, or can't take a post.
#[derive(Clone, Copy, PartialEq, Eq, Debug, Error)]
pub enum PostError {
    /// The size is 0 or above 2,048.
    #[error("the size of a completion ring is 1 to 2048")]
    BadSize,
    /// The room wasn't found.
    #[error("out of memory")]
    Memory,
}

impl From<AllocError> for PostError {
    ghost from_gives = { λ _ e. e ≡ Memory };

    fn from(_e: AllocError) -> PostError {
        PostError::Memory
    }
}
