//! Why a call on the board is refused. A refusal changes nothing.
use std::alloc::{AllocError, AllocFailed};
use thiserror::Error;

/// Why a board can't be made.
#[derive(Clone, Copy, PartialEq, Eq, Debug, Error)]
pub enum BoardError {
    /// The shape is outside its limits.
    #[error("the shape is outside its limits")]
    BadShape,
    /// Its room wasn't found.
    #[error("out of memory")]
    Memory,
}

impl From<AllocError> for BoardError {
    ghost use Rattle.std.specs.Prelude.{◌≡◌};
    ghost use Rattle.board.specs.declared.error.BoardError.TheVariants.{Memory};

    ghost from_gives = { λ _ e. e ≡ Memory };

    fn from(_error: AllocError) -> BoardError {
        BoardError::Memory
    }
}

impl<T: Drop> From<AllocFailed<T>> for BoardError {
    ghost use Rattle.std.specs.Prelude.{◌≡◌};
    ghost use Rattle.board.specs.declared.error.BoardError.TheVariants.{Memory};

    ghost from_gives = { λ _ e. e ≡ Memory };

    fn from(_error: AllocFailed<T>) -> BoardError {
        BoardError::Memory
    }
}

/// Why an entry or a batch isn't taken (io_uring_enter(2)). They are tested in the order `BufferLength`, `Full`, `Spent`.
#[derive(Clone, Copy, PartialEq, Eq, Debug, Error)]
pub enum SubmitError {
    /// A cell that the entry or the batch needs is not free, or the batch is longer than its ring has cells.
    #[error("the ring is full")]
    Full,
    /// A buffer doesn't have its entry's length: `len` for a READ or WRITE, none for others that are valid.
    #[error("the buffer doesn't have the entry's length")]
    BufferLength,
    /// A cell that it needs has had all requests that it can have.
    #[error("the cell has had all its requests")]
    Spent,
}

/// Why there is no completion to take.
#[derive(Clone, Copy, PartialEq, Eq, Debug, Error)]
pub enum ReapError {
    /// The request has no reply yet, or wasn't submitted.
    #[error("no reply yet")]
    NotYet,
    /// Its completion was taken before.
    #[error("taken before")]
    Gone,
    /// It is a request of another ring.
    #[error("a request of another ring")]
    Foreign,
}

/// The clock doesn't go back, and it ends at tick 2,147,483,647.
#[derive(Clone, Copy, PartialEq, Eq, Debug, Error)]
#[error("the clock doesn't go there")]
pub struct ClockEnd;

/// Why a board isn't ended.
#[derive(Clone, Copy, PartialEq, Eq, Debug, Error)]
pub enum FinishError {
    /// A pass of the board is not among those handed in.
    #[error("a pass is missing")]
    Missing,
    /// The report's room wasn't found.
    #[error("out of memory")]
    Memory,
}
