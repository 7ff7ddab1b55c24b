//! Scripts carried out on a runtime: each ring's lines in a thread of its own, the clock's in the poller's.
#![tactic(auto)]

mod actor;
mod barrier;
mod clock;
pub mod fault;
mod lines;
mod pulse;
mod rows;
pub mod run;
mod stage;
mod threads;
mod watch;

pub use fault::RunFault;
pub use run::run_script;
