//! Timers: which request has which deadline, and which is due.
#![tactic(auto)]

pub mod calls;
pub mod error;
pub mod looks;
pub mod set;
mod slots;
pub mod sorted;
pub mod timers;

pub use calls::{Answer, Call, run};
pub use error::Memory;
pub use looks::Looks;
pub use set::TimerSet;
pub use sorted::SortedTimers;
pub use timers::Timers;
