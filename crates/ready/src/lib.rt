//! The ready queue: the requests that may begin, from the poller to the workers, without a lock.
#![tactic(auto)]

pub mod account;
pub mod error;
pub mod law;
pub mod pass;
mod plays;
pub mod queue;
pub mod room;
pub mod span;

pub use account::Account;
pub use error::{GatherError, Memory, Ungathered};
pub use law::Law;
pub use pass::ReadyPass;
pub use queue::ReadyQueue;
pub use room::GatherRoom;
pub use span::Span;
