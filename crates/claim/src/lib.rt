//! The 64-bit words of a cell: what its request is doing, what others need of its entry, and how both are packed.
#![tactic(auto)]

pub mod facts;
pub mod tag;
pub mod word;

pub use facts::{FactsWord, pack_facts, unpack_facts, with_outcome};
pub use tag::{Cause, Tag};
pub use word::{ClaimWord, GENERATIONS, pack, unpack};
