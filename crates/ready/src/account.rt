//! What a pass of the ready queue stands for. It exists in proofs alone: no value of this type is made.
use crate::span::Span;
use std::collections::LinkedList;

/// What a pass has put and taken out, and its share of the right to know all puts and takes.
pub struct Account {
    pub share: u64,
    /// The spans that it put, in order.
    pub put: LinkedList<Span>,
    /// The spans that it took out, in order.
    pub taken: LinkedList<Span>,
}
