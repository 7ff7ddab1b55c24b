//! Completion rings: what was answered, in the order of the posts, with an overflow that loses nothing.
#![tactic(auto)]

pub mod error;
pub mod ring;

pub use error::PostError;
pub use ring::{CompletionRing, Place};
