//! Turnstiles: what a thread goes through with a request at certain points.
use history::Req;

/// Where a thread is with a request.
#[derive(Clone, Copy, PartialEq, Eq, Debug)]
pub enum Point {
    /// A worker, before it begins the request.
    Begin,
    /// A worker, between the begin and the run.
    Run,
    /// A worker whose run parked the request, before it goes back to the ready queue.
    Park,
    /// A worker or the poller, before the request is posted and before the lock of its completion ring is taken.
    Post,
}

/// A thread calls `pass` at each point of each request, and continues when it returns. So a test can hold a request at a point.
/// An implementation returns after a bounded time.
pub trait Turnstile {
    fn pass(&self, at: Point, r: Req);
}

/// Lets everything through at once.
#[derive(Clone, Copy)]
pub struct Open;

impl Turnstile for Open {
    fn pass(&self, _at: Point, _r: Req) {}
}
