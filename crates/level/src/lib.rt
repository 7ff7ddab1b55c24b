//! What each operation on a pipe replies, decided by the pipe's level: how much it holds, and which of its ends are closed.
#![tactic(auto)]

pub mod ends;
pub mod errno;
pub mod level;
pub mod poll;

pub use ends::End;
pub use level::Level;
