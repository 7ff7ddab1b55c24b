//! What an operation answers that asks for no other request: with its held pipe, with both of its pipes, or without a
//! pipe. The answers of held pipes are those of the definitions over the history; that is shown here, in one place.
#![tactic(auto)]

pub mod named;
pub mod piped;
pub mod plain;
pub mod splice;

pub use named::{NamedPipes, pipes_of};
pub use piped::answer_with;
pub use plain::answer_without;
pub use splice::answer_both;
