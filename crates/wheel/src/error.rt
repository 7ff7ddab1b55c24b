//! Why a timer can't be armed.
ghost use Rattle.std.specs.Prelude.{◌≡◌};

use thiserror::Error;

/// The room for a timer wasn't found.
#[derive(Clone, Copy, PartialEq, Eq, Debug, Error)]
#[error("out of memory")]
pub struct Memory;
