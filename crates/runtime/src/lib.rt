//! The runtime: a poller, workers and clients over one board, with a doorbell, a ready queue and completion rings.
#![tactic(auto)]

mod backlog;
pub mod client;
mod crew;
pub mod error;
mod held;
pub mod join;
mod lists;
mod locks;
mod parts;
pub mod poll;
mod poll_state;
mod posting;
mod promised;
mod releasing;
mod ringing;
mod rooms;
pub mod serving;
mod settling;
mod shared;
mod sleeping;
pub mod started;
pub mod startup;
mod threads;
pub mod turn;

pub use client::Client;
pub use error::{JoinError, Memory, StartError};
pub use join::{Rested, Unjoined, join_all, join_at_rest};
pub use poll::{PollDesk, poll_turn};
pub use serving::{WorkDesk, work_turn};
pub use started::Runtime;
pub use startup::start;
pub use turn::{Route, Turn};
