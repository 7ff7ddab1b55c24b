//! Where turns are made, and what they come to.
use board::Board;
use ready::ReadyQueue;

/// Where a turn is made: the board, and the ready queue by which its requests come to the workers; with the permission to wait.
#[derive_where(Clone, Copy)]
pub struct Route<'a, R> {
    pub rt: &'a R,
    pub board: &'a Board,
    pub queue: &'a ReadyQueue,
}

/// What a turn came to.
#[derive(Clone, Copy, PartialEq, Eq, Debug)]
pub enum Turn {
    /// It did something, or keeps a number.
    Moved,
    /// It did nothing, but has requests to look after that wait or are armed.
    Still,
    /// It did nothing, and has nothing to look after.
    Idle,
}
