//! The definitions of the one-thread ring, and what holds of every legal history.
#![tactic(auto)]

pub mod bytes;
pub mod event;
pub mod req;

pub use bytes::Bytes;
pub use event::Event;
pub use req::Req;
