//! Streams: bytes written out whole, and read in to their end.
#![tactic(auto)]

pub mod fault;
pub mod input;
pub mod output;
pub mod stream;

pub use fault::{InputFault, OutputFault};
pub use input::read_all;
pub use output::write_out;
pub use stream::{Sink, Source};
