//! Which requests of a ring may start: what chains, failures, drains and link timeouts make of them.
#![tactic(auto)]

mod cell;
mod cells;
pub mod error;
pub mod gate;
pub mod row;
pub mod traits;

pub use error::{Memory, RowFull};
pub use gate::{Asked, Gate};
pub use row::Row;
pub use traits::Traits;
