//! What a worker does with a request: it begins it, and answers it or puts it back.
#![tactic(auto)]

mod advance;
mod answering;
pub mod busy;
mod cancel;
mod cancel_all;
mod cancel_matches;
pub mod grid;
mod holding;
mod joining;
pub mod lists;
mod marks;
pub mod pass;
mod placed;
pub mod run;
mod task;
pub mod worker;

pub use busy::Busy;
pub use grid::{Cell, Grid};
pub use lists::Lists;
pub use pass::{Messenger, Pass};
pub use run::{Parked, Ran};
pub use worker::Worker;
