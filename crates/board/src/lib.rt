//! The board: rings, pipes and workers over one shared table, as its passes use it. No lock guards it.
#![tactic(auto)]

mod alarm;
mod batch;
pub mod board;
mod bounds;
pub mod completion;
mod counting;
pub mod end;
pub mod error;
mod gating;
mod intake;
mod last_cells;
mod linked;
mod looks;
pub mod phase;
pub mod poller;
mod polling;
mod queue;
mod release;
mod report;
pub mod shape;
mod submit;
pub mod submitter;
mod timing;

pub use board::Board;
pub use completion::{Completion, Report};
pub use end::{ReportRoom, Unfinished};
pub use error::{BoardError, ClockEnd, FinishError, ReapError, SubmitError};
pub use phase::Phase;
pub use poller::{Arming, Counting, Expiry, Firing, Polled, Poller, Released, Settling};
pub use shape::{RingShape, Shape};
pub use submitter::Submitter;
pub use work::{Busy, Parked, Pass, Ran, Worker};
