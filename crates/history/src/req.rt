//! The name of a request.

/// The request `k` (from 0, in the order of submission) of the ring `ring`.
#[derive(Clone, Copy, PartialEq, Eq, Debug)]
pub struct Req {
    pub ring: u16,
    pub k: u64,
}
