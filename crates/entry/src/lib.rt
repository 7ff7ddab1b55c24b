//! Submission queue entries and completions: what they say, and their bytes.
#![tactic(auto)]

mod bytes;
pub mod cqe;
mod field;
pub mod flags;
pub mod links;
pub mod op;
pub mod row;
mod shown;
pub mod sqe;
pub mod table;

pub use cqe::Cqe;
pub use flags::SqeFlags;
pub use op::{Offset, Op};
pub use row::Fields;
pub use sqe::{Sqe, fails};
