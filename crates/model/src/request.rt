//! What is kept of one request.
ghost use Rattle.std.specs.Prelude.{◌≡◌, Some};
ghost use Rattle.history.specs.Chains.{joins, hosts};
ghost use Rattle.model.specs.{handed_of, is_pending, reply_at, is_idle, is_due};

use crate::found::Found;
use crate::shared::Shared;
use entry::Sqe;
use history::Bytes;

/// Where a request stands. An unborn one is not kept.
#[derive(Clone, Copy, PartialEq, Eq)]
pub enum RequestStage {
    Waits,
    Runs,
    /// The deadline.
    Armed(u32),
    /// The reply.
    Replied(i32),
    /// The reply, after the completion was taken.
    Reaped(i32),
}

#[derive(Drop)]
pub struct Request {
    /// As it was handed in.
    pub sqe: Sqe,
    pub bytes: Shared,
    pub last: bool,
    pub stage: RequestStage,
    /// What it has done so far, where it is a cancel.
    pub found: Found,
    /// A timer that ran out in time.
    pub fired: bool,
    /// What came with the reply.
    pub taken: Bytes,
}

impl RequestStage {
    /// It was not answered.
    pub fn is_pending(self) -> bool
        ensures { result ≡ is_pending self }
    {
        match self {
            RequestStage::Waits | RequestStage::Runs | RequestStage::Armed(_) => true,
            RequestStage::Replied(_) | RequestStage::Reaped(_) => false,
        }
    }

    /// It waits, or is armed.
    pub fn is_idle(self) -> bool
        ensures { result ≡ is_idle (Some self) }
    {
        matches!(self, RequestStage::Waits | RequestStage::Armed(_))
    }

    /// It is armed with a deadline that has come.
    pub fn is_due(self, clock: u32) -> bool
        ensures { result ≡ is_due clock (Some self) }
    {
        match self {
            RequestStage::Armed(deadline) => deadline <= clock,
            RequestStage::Waits
            | RequestStage::Runs
            | RequestStage::Replied(_)
            | RequestStage::Reaped(_) => false,
        }
    }

    pub fn reply(self) -> Option<i32>
        ensures { result ≡ reply_at self }
    {
        match self {
            RequestStage::Replied(res) | RequestStage::Reaped(res) => Some(res),
            RequestStage::Waits | RequestStage::Runs | RequestStage::Armed(_) => None,
        }
    }
}

impl Request {
    /// The next request of the ring is in its chain.
    pub fn joins(&self) -> bool
        ensures { result ≡ joins (Some (handed_of self.now)) }
    {
        (self.sqe.links_soft() || self.sqe.links_hard()) && !self.last
    }

    /// A LINK_TIMEOUT may stand directly after it.
    pub fn hosts(&self) -> bool
        ensures { result ≡ hosts (Some (handed_of self.now)) }
    {
        self.joins() && !self.sqe.op().is_link_timeout()
    }
}
