//! The command line of the program: which words each command takes, and what they ask for.
#![tactic(auto)]

mod command;
mod job;

pub use job::{Invocation, Job, Look, invocation_of};
