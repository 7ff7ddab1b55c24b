//! One in-memory pipe: bytes between a read end and a write end. A call replies at once, or says that it has no reply yet.
#![tactic(auto)]

pub mod error;
pub mod pipe;

pub use error::PipeError;
pub use pipe::Pipe;
