//! Why a row says no.
ghost use Rattle.std.specs.Prelude.{◌≡◌};

use thiserror::Error;

/// The room for a row wasn't found.
#[derive(Clone, Copy, PartialEq, Eq, Debug, Error)]
#[error("out of memory")]
pub struct Memory;

/// The cell of the next entry isn't free: the request that holds it, or a member of that request's chain, has not replied.
#[derive(Clone, Copy, PartialEq, Eq, Debug, Error)]
#[error("the row is full")]
pub struct RowFull;
